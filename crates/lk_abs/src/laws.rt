// Laws of lawful histories. The functions do nothing: their contracts are the laws.
ghost use Rattle.std.specs.Prelude.{◌≡◌, ◌↔◌, [], ◌∷◌, ◌++◌, None, Some, All, List};
ghost use Rattle.lk_names.specs.History.{lock_of, history_of};
ghost use Rattle.lk_names.specs.Kicks.{kicks_of};
ghost use Rattle.lk_names.specs.Lawful.{Rules, FrontIsOwed, IsLawful};
ghost use Rattle.lk_abs.specs.Breaches.{first_breach};
ghost use Rattle.lk_abs.specs.NoKick.{no_kick};
ghost use Rattle.lk_abs.specs.Judge.{Events};

use lk_names::{Event, Format, LockName, Mode, Waiter};

/// The judge is exact. A lawful history with one more event on a lock is lawful exactly if the
/// event breaks no clause of the table and, in mode `pv`, leaves no queue head of a free lock
/// halted without a pending kick. With one more event on no lock it is lawful exactly if the event
/// leaves no such queue head.
pub fn judge_is_exact()
    ensures on_a_lock { (rules : Rules) (es : Events) (e : Event) (l : LockName)
        → IsLawful rules es
        → lock_of e.what ≡ Some l
        → (IsLawful rules (es ++ e ∷ [])
        ↔ ((first_breach rules (history_of l es) e.by e.what ≡ None)
        × (rules.mode ≡ Mode.Pv → (k : LockName) → FrontIsOwed (es ++ e ∷ []) k))) }
    ensures on_none { (rules : Rules) (es : Events) (e : Event)
        → IsLawful rules es
        → lock_of e.what ≡ None
        → (IsLawful rules (es ++ e ∷ [])
        ↔ (rules.mode ≡ Mode.Pv → (k : LockName) → FrontIsOwed (es ++ e ∷ []) k)) }

    // The search, lock by lock, finds nothing exactly if no queue head of a free lock has halted
    // without a kick pending.
    ensures no_kick { (es : Events) (ls : List LockName)
        → (no_kick (kicks_of es) (λ l. history_of l es) ls ≡ None) ↔ All (FrontIsOwed es) ls }
{}

/// In format 2 a lawful history moves only tasks aside, and no waiter in an interrupt.
pub fn aside_are_tasks()
    ensures { (rules : Rules) (es : Events) (l : LockName)
        → IsLawful rules es
        → rules.format ≡ Format.Two
        → All (λ (u : Waiter). u.ctx ≡ 0) (history_of l es).second }
{}
