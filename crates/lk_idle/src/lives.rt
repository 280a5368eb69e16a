// Which registers of a frame live, and the frame with all others at rest.

ghost use Rattle.std.specs.Prelude.{◌≡◌, if◌then◌else◌, None, false};
ghost use Rattle.lk_rows.specs.declared.parts.Why.TheVariants as whys;
ghost use Rattle.lk_idle.specs.Lives.{lives_at, none_lives, tail_lives};
ghost use Rattle.lk_idle.specs.Alike.{rested_frame};

use lk_rows::{Frame, Pc, Why};
use lk_word::NodeName;

/// Which registers of a frame live. A register that is not here always lives.
#[derive(Clone, Copy)]
pub struct Lives {
    pub prev: bool,
    pub second: bool,
    pub y: bool,
    pub a: bool,
    pub b: bool,
    pub k: bool,
    pub t: bool,
    pub why: bool,
    pub tailed: bool,
    pub left: bool,
    pub hashed: bool,
    pub target: bool,
}

// None of them lives.
fn none_lives() -> Lives
    ensures { result ≡ none_lives }
{
    Lives {
        prev: false,
        second: false,
        y: false,
        a: false,
        b: false,
        k: false,
        t: false,
        why: false,
        tailed: false,
        left: false,
        hashed: false,
        target: false,
    }
}

// Those that live where a head reads the last of the secondary queue (C3), by why it does.
fn tail_lives(why: Why) -> Lives
    ensures { result ≡ tail_lives why }
{
    Lives {
        second: true,
        k: true,
        why: true,
        a: !matches!(why, Why::Promotion),
        b: matches!(why, Why::Append),
        y: matches!(why, Why::Append),
        ..none_lives()
    }
}

// Those that live at a row, by why a head reads the last of the secondary queue.
fn lives_of(row: Pc, why: Why) -> Lives
    ensures { result ≡ lives_at (Some row) why }
{
    use Pc::*;
    let none = none_lives();
    let second = Lives {
        second: true,
        ..none
    };
    let searching = Lives { k: true, ..second };
    match row {
        G2 | G3 | G4 | G6 | G7 | G8 | G9 | H1 | C1 => second,
        G5 => Lives {
            prev: true,
            ..second
        },
        G11 | E15 | K1 | K2 | K3 => Lives { y: true, ..none },
        H2 => Lives {
            tailed: true,
            ..second
        },
        C2 => Lives {
            a: true,
            b: true,
            ..searching
        },
        C3 => tail_lives(why),
        C4 => Lives {
            a: true,
            b: true,
            y: true,
            t: true,
            ..searching
        },
        C5 | C6 => Lives {
            b: true,
            y: true,
            ..searching
        },
        C7 | C8 => Lives {
            y: true,
            ..searching
        },
        C9 => Lives {
            a: true,
            t: true,
            ..searching
        },
        C10 => Lives {
            t: true,
            ..searching
        },
        W1 | W2 => Lives {
            prev: true,
            left: true,
            ..none
        },
        W3 | W4 | W5 | W6 | W7 => Lives { prev: true, ..none },
        E4 => Lives {
            hashed: true,
            left: true,
            ..none
        },
        E2 | E3 | E5 | E10 | E11 | E12 => Lives {
            hashed: true,
            ..none
        },
        U4 | U5 => Lives {
            target: true,
            ..none
        },
        _ => none,
    }
}

// Those that live at a place.
fn lives_at(place: Option<Pc>, why: Why) -> Lives
    ensures { result ≡ lives_at place why }
{
    match place {
        Some(row) => lives_of(row, why),
        None => none_lives(),
    }
}

// A node's name in a register, if the register lives.
fn name_if(lives: bool, name: Option<NodeName>) -> Option<NodeName>
    ensures { result ≡ (if lives then name else None) }
{
    if lives { name } else { None }
}

// A number in a register, if the register lives.
fn number_if(lives: bool, number: u32) -> u32
    ensures { result ≡ (if lives then number else 0) }
{
    if lives { number } else { 0 }
}

// A mark in a register, if the register lives.
fn mark_if(lives: bool, mark: bool) -> bool
    ensures { result ≡ (if lives then mark else false) }
{
    if lives { mark } else { false }
}

// The reason in its register, if the register lives.
fn why_if(lives: bool, why: Why) -> Why
    ensures { result ≡ (if lives then why else whys.Append) }
{
    if lives { why } else { Why::Append }
}

/// The frame with each register at rest that no row reads before one writes it.
pub fn rested(frame: Frame) -> Frame
    ensures { result ≡ rested_frame frame }
{
    let lives = lives_at(frame.place, frame.why);
    Frame {
        prev: name_if(lives.prev, frame.prev),
        second: name_if(lives.second, frame.second),
        y: name_if(lives.y, frame.y),
        a: name_if(lives.a, frame.a),
        b: name_if(lives.b, frame.b),
        k: number_if(lives.k, frame.k),
        t: name_if(lives.t, frame.t),
        why: why_if(lives.why, frame.why),
        tailed: mark_if(lives.tailed, frame.tailed),
        left: number_if(lives.left, frame.left),
        hashed: mark_if(lives.hashed, frame.hashed),
        target: name_if(lives.target, frame.target),
        ..frame
    }
}
