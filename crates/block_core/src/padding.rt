//! Padding to whole blocks (RFC 5652, section 6.3).
ghost use Rattle.std.specs.Prelude.{◌≡◌, ◌-◌, ◌%◌, ℕ, IfOk, OnErr};
ghost use Rattle.block_core.specs.Padding.{IsPadded, text_before, unpadded};

/// A text whose padding is not right: its length is 0 or no multiple of 16, its last byte is not
/// from 1 to 16, or one of as many last bytes as it says is another byte.
#[derive(Clone, Copy)]
pub struct BadPadding;

/// The number of bytes of padding after n bytes of text, from 1 to 16; each of them has this value.
pub fn pad_len(n: usize) -> usize
    ensures { result ≡ 16 - n % 16 }
{
    16 - n % 16
}

/// The length of a text without its padding.
pub fn unpad(text: &[u8]) -> Result<usize, BadPadding>
    ensures text { text_before text.now result ≡ unpadded text.now }
    ensures ok { IfOk result (λ n. IsPadded text.now n) }
    ensures err { OnErr result ((n : ℕ) → ¬ IsPadded text.now n) }
{
    length_before(text)
}

// The length of a text without its padding.
fn length_before(text: &[u8]) -> Result<usize, BadPadding>
    ensures ok { IfOk result (λ n. IsPadded text.now n) }
    ensures err { OnErr result ((n : ℕ) → ¬ IsPadded text.now n) }
{
    let len = text.len();
    if len % 16 != 0 {
        return Err(BadPadding);
    }
    let Some(last) = text.last() else {
        return Err(BadPadding);
    };
    let count = usize::from(*last);
    if count == 0 || count > 16 {
        return Err(BadPadding);
    }
    'padding: for i in len - count..len {
        if usize::from(text[i]) != count {
            return Err(BadPadding);
        }
    }
    Ok(len - count)
}
