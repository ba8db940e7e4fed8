//! Requests as they are written.
ghost use Rattle.std.specs.Prelude.{◌≡◌, ◌≤◌, ◌<◌, ◌+◌, ◌*◌, ◌↔◌, length, take, OnOk, OnErr, IsErr};
ghost use Rattle.rtcp_compound.specs.Compound.{application, feedback};
ghost use Rattle.rtcp_compound.specs.Name.{rist_name};
ghost use Rattle.rtcp_compound.specs.Writing.{Gains, app_octets, feedback_octets};
ghost use Rattle.rist_nack.specs.Written.{words_spelling, upper_spelling};

use octet_fields::put_at;
use rtcp_compound::{CompoundOut, Full, OUT_LEN, RIST_NAME};

// More words than these fit no compound.
const MAX_WORDS: usize = 350;

// Writes words of two halves one after another, and answers the place behind them.
fn put_words(out: &mut [u8], words: &[(u16, u16)]) -> usize
    requires { 4 * length words.now ≤ length out.old }
    ensures end { result ≡ 4 * length words.now }
    ensures octets { take result out.new ≡ words_spelling words.now }
{
    let mut place = 0;
    for word in words {
        place = put_at(out, place, &word.0.to_be_bytes());
        place = put_at(out, place, &word.1.to_be_bytes());
    }
    place
}

/// Puts a range NACK for a flow: words of a first number and how many more after it. `Full` where it
/// doesn't fit.
pub fn put_range(out: &mut CompoundOut, media: u32, words: &[(u16, u16)]) -> Result<(), Full>
    requires { 0 < length out.old.octets }
    ensures ok { OnOk result (Gains out.old out.new
        (application 0 media rist_name (words_spelling words.now))
        (app_octets 0 media rist_name (words_spelling words.now))) }
    ensures full { IsErr result ↔ (OUT_LEN < length out.old.octets + 12 + 4 * length words.now) }
    ensures same { OnErr result (out.new ≡ out.old) }
{
    if words.len() > MAX_WORDS {
        return Err(Full);
    }
    let mut block = [0; 1400];
    let end = put_words(&mut block, words);
    out.put_app(0, media, RIST_NAME, &block[..end])
}

/// Puts a generic NACK for a flow: words of a number and a mask of the 16 numbers behind it, the
/// least significant bit for the next one. `Full` where it doesn't fit.
pub fn put_mask(
    out: &mut CompoundOut,
    sender: u32,
    media: u32,
    words: &[(u16, u16)],
) -> Result<(), Full>
    requires { 0 < length out.old.octets }
    ensures ok { OnOk result (Gains out.old out.new
        (feedback 205 1 sender media (words_spelling words.now))
        (feedback_octets 205 1 sender media (words_spelling words.now))) }
    ensures full { IsErr result ↔ (OUT_LEN < length out.old.octets + 12 + 4 * length words.now) }
    ensures same { OnErr result (out.new ≡ out.old) }
{
    if words.len() > MAX_WORDS {
        return Err(Full);
    }
    let mut block = [0; 1400];
    let end = put_words(&mut block, words);
    out.put_feedback(205, 1, sender, media, &block[..end])
}

/// Puts a sequence extension: the upper half of the numbers that the flow's later requests name.
/// `Full` where it doesn't fit.
pub fn put_seqext(out: &mut CompoundOut, media: u32, upper: u16) -> Result<(), Full>
    requires { 0 < length out.old.octets }
    ensures ok { OnOk result (Gains out.old out.new
        (application 1 media rist_name (upper_spelling upper))
        (app_octets 1 media rist_name (upper_spelling upper))) }
    ensures full { IsErr result ↔ (OUT_LEN < length out.old.octets + 16) }
    ensures same { OnErr result (out.new ≡ out.old) }
{
    let [high, low] = upper.to_be_bytes();
    out.put_app(1, media, RIST_NAME, &[high, low, 0, 0])
}
