//! Texts as a terminal, a table, csv, tsv and json have them.
use std::alloc::AllocError;

/// Adds spaces.
pub fn push_spaces(out: &mut Vec<u8>, count: usize) -> Result<(), AllocError> {
    for _ in 0..count {
        out.push(b' ')?;
    }
    Ok(())
}

/// Returns how many columns a text takes: continuation bytes of UTF-8 take none.
pub fn columns_of(text: &[u8]) -> usize {
    text.iter().filter(|byte| **byte & 0xC0 != 0x80).count()
}

/// Adds a text as a terminal may get it: ? stands for each control character but a tab.
pub fn push_printable(out: &mut Vec<u8>, text: &[u8]) -> Result<(), AllocError> {
    let mut rest = text;
    while let [byte, behind @ ..] = rest {
        rest = behind;
        match (*byte, behind) {
            (0xC2, [0x80..=0x9F, after @ ..]) => {
                rest = after;
                out.push(b'?')?;
            }
            (0x00..=0x08 | 0x0A..=0x1F | 0x7F, _) => out.push(b'?')?,
            _ => out.push(*byte)?,
        }
    }
    Ok(())
}

/// Adds a key as a table shows it.
pub fn push_shown(out: &mut Vec<u8>, key: &[u8]) -> Result<(), AllocError> {
    if key.is_empty() {
        return out.extend_from_slice(b"\"\"");
    }
    let start = out.len();
    push_printable(out, key)?;
    for i in start..out.len() {
        if out[i] == b'\t' {
            out[i] = b' ';
        }
    }
    Ok(())
}

/// Adds a text in quotes, each quote in it twice.
pub fn push_in_quotes(out: &mut Vec<u8>, text: &[u8]) -> Result<(), AllocError> {
    out.push(b'"')?;
    for byte in text {
        if *byte == b'"' {
            out.push(b'"')?;
        }
        out.push(*byte)?;
    }
    Ok(out.push(b'"')?)
}

/// Adds a key as a field of CSV.
pub fn push_quoted(out: &mut Vec<u8>, key: &[u8]) -> Result<(), AllocError> {
    if key.iter().any(|byte| matches!(*byte, b'"' | b',' | b'\r')) {
        return push_in_quotes(out, key);
    }
    out.extend_from_slice(key)
}

/// The digits of hexadecimal numbers.
const HEX: &[u8; 16] = b"0123456789abcdef";

/// Adds a text as a string of json has it.
pub fn push_json(out: &mut Vec<u8>, text: &[u8]) -> Result<(), AllocError> {
    for byte in text {
        match *byte {
            b'\t' => out.extend_from_slice(b"\\t")?,
            b'"' => out.extend_from_slice(b"\\\"")?,
            b'\\' => out.extend_from_slice(b"\\\\")?,
            control @ 0x00..=0x1F => {
                out.extend_from_slice(b"\\u00")?;
                out.push(HEX[(control / 16) as usize])?;
                out.push(HEX[(control % 16) as usize])?;
            }
            other => out.push(other)?,
        }
    }
    Ok(())
}

/// Adds a key with \t for a tab, and \\ for a backslash.
pub fn push_escaped(out: &mut Vec<u8>, key: &[u8]) -> Result<(), AllocError> {
    for byte in key {
        match *byte {
            b'\t' => out.extend_from_slice(b"\\t")?,
            b'\\' => out.extend_from_slice(b"\\\\")?,
            other => out.push(other)?,
        }
    }
    Ok(())
}

/// Adds a key with a tab for \t, and a backslash for \\.
pub fn push_unescaped(out: &mut Vec<u8>, key: &[u8]) -> Result<(), AllocError> {
    let mut rest = key;
    while let [byte, behind @ ..] = rest {
        match behind {
            [b't', after @ ..] if *byte == b'\\' => {
                rest = after;
                out.push(b'\t')?;
            }
            [next, after @ ..] if *byte == b'\\' => {
                rest = after;
                out.push(*next)?;
            }
            _ => {
                rest = behind;
                out.push(*byte)?;
            }
        }
    }
    Ok(())
}
