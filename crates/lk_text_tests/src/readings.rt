// Words and their readings, a row each: the words, parted by `|`, and then what they ask for.

use lk_words::reading;
use std::alloc::Global;
use std::test::Fail;

// The first row has no word but an empty one.
const READINGS: &str = " = None
replay = Some(Replay)
osq = Some(Osq)
audit = Some(Audit)
ledger = Some(Ledger)
gen|7 = Some(Gen(7))
gen|2147483646 = Some(Gen(2147483646))
gen|2147483647 = None
gen|0 = None
gen|+7 = None
gen|=7 = None
gen=7 = None
gen| = None
gen = None
gen|7|8 = None
gen|7| = None
gen|help = None
load|00000000000000000001 = Some(Load(1))
load|000000000000000000001 = None
load|0 = None
load = None
|gen|7 = None
help = None
help|gen = None
replay| = None
replay|x = None
replay|replay = None
replay|help = None
ledger|x = None
osq|7 = None
audit|x = None
rep = None
REPLAY = None
-- = None
--|replay = None
gen|--|7 = None
gen|-7 = None
-h = None
replay|--help = None
-V = None";

// What the words of a row ask for, as text.
fn told(alloc: Global, words: &str) -> Result<String, Fail> {
    let mut list = Vec::new(alloc);
    for word in words.split('|') {
        list.push(String::from_str(alloc, word)?)?;
    }
    Ok(format!(in alloc; "{:?}", reading(alloc, &list)?)?)
}

#[test]
fn words_name_a_reading(rt: HostRuntime) -> Result<(), Fail> {
    for row in READINGS.lines() {
        let (words, wanted) = row.split_once(" = ").ok_or("no reading")?;
        let told = told(rt.alloc(), words)?;
        assert_eq!(rt; told.as_str(), wanted, "of {words}");
    }
    let none = Vec::new(rt.alloc());
    assert!(rt; reading(rt.alloc(), &none)?.is_none());
    Ok(())
}
