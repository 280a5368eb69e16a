// The text of the generated trace against one that another program made.

use lk_gen::{generate, generated_texts_are_good};
use lk_text::MemSink;
use std::test::Fail;

// The length of the text and its hash are those of the other program's text.
#[test]
fn text_of_seed_7_is_that_of_the_other_program(rt: HostRuntime) -> Result<(), Fail> {
    generated_texts_are_good();
    let mut sink = MemSink::new(rt.alloc(), 524_288, &[])?;
    assert!(rt; generate(7, &mut sink).is_ok());
    let text = sink.bytes();
    assert_eq!(rt; text.len(), 250_701);
    let mut hash: u64 = 0;
    for b in text {
        hash = (hash % 1_000_003 * 31 + u64::from(*b)) % 1_000_003;
    }
    assert_eq!(rt; hash, 909_555);
    Ok(())
}
