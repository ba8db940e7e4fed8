//! What a test expects.
use std::test::Fail;

/// This holds, or else the test fails with a text.
pub fn expect(holds: bool, text: &str) -> Result<(), Fail> {
    if holds { Ok(()) } else { Err(Fail::new(text)) }
}
