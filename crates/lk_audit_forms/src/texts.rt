// The one line that an audit writes.
ghost use Rattle.std.specs.Prelude.{◌≡◌, ◌≤◌, length};
ghost use Rattle.lk_text.specs.Line.{line_text};
ghost use Rattle.lk_audit_forms.specs.Grammar.{lawful_text};
ghost use Rattle.lk_audit_forms.specs.Texts.{name_text, breach_text};

use crate::answers::BreachName;
use lk_text::LineBuf;

/// `lawful e`: the verdict on a lawful history of `e` events.
#[tactic(auto, using(lk_forms::proofs::Decimals::decimal_short))]
pub fn lawful_line(events: u64) -> LineBuf
    ensures { line_text result ≡ lawful_text events }
{
    let mut line = LineBuf::new();
    line.word(b"lawful ");
    line.number(events);
    line.word(b"\n");
    line
}

// The name as it is written.
fn name_text(name: BreachName) -> &'static [u8]
    ensures text { result.now ≡ name_text name }
    ensures short { length result.now ≤ 13 }
{
    match name {
        BreachName::Beside => b"Beside",
        BreachName::NotHolder => b"NotHolder",
        BreachName::Twice => b"Twice",
        BreachName::WrongHead => b"WrongHead",
        BreachName::WrongMove => b"WrongMove",
        BreachName::WrongNext => b"WrongNext",
        BreachName::OverThreshold => b"OverThreshold",
        BreachName::NoKick => b"NoKick",
    }
}

/// `breach n Name`: the verdict on a history that line `n` breaks. Lines are counted from 1.
#[tactic(auto, using(lk_forms::proofs::Decimals::decimal_short))]
pub fn breach_line(line: u64, name: BreachName) -> LineBuf
    ensures { line_text result ≡ breach_text line name }
{
    let mut text = LineBuf::new();
    text.word(b"breach ");
    text.number(line);
    text.word(b" ");
    text.word(name_text(name));
    text.word(b"\n");
    text
}
