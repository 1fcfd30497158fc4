//! Bytes without the blanks around them.
ghost use Rattle.std.specs.Prelude.{◌≡◌, reverse};
ghost use Rattle.web3_signer.specs.Readings.{is_blank, trim, trim_front};

/// Whether a byte is a space, a line feed or a carriage return.
fn is_blank(byte: u8) -> bool
    ensures { result ≡ is_blank byte }
{
    byte == b' ' || byte == b'\n' || byte == b'\r'
}

/// The bytes without the blanks at both ends.
pub(crate) fn trimmed(bytes: &[u8]) -> &[u8]
    ensures { result.now ≡ trim bytes.now }
{
    without_back(without_front(bytes))
}

/// The bytes without the blanks at their front.
fn without_front(bytes: &[u8]) -> &[u8]
    ensures { result.now ≡ trim_front bytes.now }
{
    let mut rest = bytes;
    'blanks: while let Some((first, tail)) = rest.split_first() {
        if !is_blank(*first) {
            break;
        }
        rest = tail;
    }
    rest
}

/// The bytes without the blanks at their end.
fn without_back(bytes: &[u8]) -> &[u8]
    ensures { result.now ≡ reverse (trim_front (reverse bytes.now)) }
{
    let mut rest = bytes;
    'blanks: while let Some((last, head)) = rest.split_last() {
        if !is_blank(*last) {
            break;
        }
        rest = head;
    }
    rest
}
