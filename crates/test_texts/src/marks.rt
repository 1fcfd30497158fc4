//! Texts of tests, with marks in the place of long digits.
use std::alloc::{AllocError, Global};

/// The text with its marks filled in. A mark is a name between `<` and `>`: K1, K2, K3 and K4 are keys, `K1 digits`
/// and `K2 digits` their digits without `0x`, G0 and G1 genesis validators roots, Ra and Rb signing roots, S(K1,Ra)
/// the signature in memory of a root by a key, and S7 one of bytes `77`. `<file>` begins an interchange file of the
/// chain G0, as a text in JSON, and `</file>` ends it; `</file G1>` ends one of the chain G1. `'` is a quote within
/// such a text.
pub fn filled(alloc: Global, marked: &str) -> Result<String, AllocError> {
    let mut text = String::new(alloc);
    for piece in marked.split('<') {
        match piece.split_once('>') {
            Some((name, rest)) => {
                push_meaning(&mut text, name)?;
                push_quoted(&mut text, rest)?;
            }
            None => push_quoted(&mut text, piece)?,
        }
    }
    Ok(text)
}

/// Whether bytes are a text with marks.
pub fn is_text(alloc: Global, bytes: &[u8], marked: &str) -> Result<bool, AllocError> {
    let text = filled(alloc, marked)?;
    Ok(bytes == text.as_bytes())
}

/// Adds what a mark stands for; a name that stands for nothing is added as it is.
fn push_meaning(text: &mut String, name: &str) -> Result<(), AllocError> {
    match name {
        "K1" => push_hex(text, &[('1', 96)]),
        "K2" => push_hex(text, &[('2', 96)]),
        "K3" => push_hex(text, &[('c', 96)]),
        "K3 in capitals" => push_hex(text, &[('C', 96)]),
        "K4" => push_hex(text, &[('4', 96)]),
        "K1 digits" => push_digits(text, '1', 96),
        "K2 digits" => push_digits(text, '2', 96),
        "G0" => push_hex(text, &[('0', 64)]),
        "G1" => push_hex(text, &[('1', 64)]),
        "Ra" => push_hex(text, &[('a', 64)]),
        "Ra in capitals" => push_hex(text, &[('A', 64)]),
        "Rb" => push_hex(text, &[('b', 64)]),
        "S(K1,Ra)" => push_hex(text, &[('1', 96), ('a', 64), ('0', 32)]),
        "S(K1,Rb)" => push_hex(text, &[('1', 96), ('b', 64), ('0', 32)]),
        "S(K2,Rb)" => push_hex(text, &[('2', 96), ('b', 64), ('0', 32)]),
        "S(K3,Ra)" => push_hex(text, &[('c', 96), ('a', 64), ('0', 32)]),
        "S7" => push_hex(text, &[('7', 192)]),
        "file" => push_quoted(text, "{'data':["),
        "/file" => push_file_end(text, '0'),
        "/file G1" => push_file_end(text, '1'),
        other => text.push_str(other),
    }
}

/// Ends an interchange file of the chain whose root is this digit, 64 times.
fn push_file_end(text: &mut String, digit: char) -> Result<(), AllocError> {
    push_quoted(text, "],'metadata':{'genesis_validators_root':'")?;
    push_hex(text, &[(digit, 64)])?;
    push_quoted(text, "','interchange_format_version':'5'}}")
}

/// Adds `0x` and digits, each that many times.
fn push_hex(text: &mut String, runs: &[(char, u8)]) -> Result<(), AllocError> {
    text.push_str("0x")?;
    for (digit, count) in runs {
        push_digits(text, *digit, *count)?;
    }
    Ok(())
}

/// Adds a digit that many times.
fn push_digits(text: &mut String, digit: char, count: u8) -> Result<(), AllocError> {
    for _ in 0..count {
        text.push(digit)?;
    }
    Ok(())
}

/// Adds a text, with `\"` for each `'`.
fn push_quoted(text: &mut String, piece: &str) -> Result<(), AllocError> {
    for letter in piece.chars() {
        match letter {
            '\'' => text.push_str("\\\"")?,
            other => text.push(other)?,
        }
    }
    Ok(())
}
