//! The notation of rows: a mark stands between lines, a line may say how often it stands, as `(3 times)`, and its
//! last word may be the short name of a frame.

use std::alloc::Global;
use std::fmt::Write;
use std::test::Fail;

/// The lines of a part of a row, each with its frame in full.
pub fn lines_of(alloc: Global, part: &str, mark: &str) -> Result<String, Fail> {
    let mut text = String::new(alloc);
    if part.trim().is_empty() {
        return Ok(text);
    }
    let part = part.replace(alloc, "\n", " ")?;
    for line in part.as_str().split(mark) {
        let (line, often) = match line.rsplit_once(" (") {
            Some((line, times)) => (
                line,
                times.split_once(' ').ok_or("times")?.0.parse::<u32>()?,
            ),
            None => (line, 1),
        };
        for _ in 0..often {
            put_line(&mut text, line.trim())?;
        }
    }
    Ok(text)
}

fn put_line(text: &mut String, line: &str) -> Result<(), Fail> {
    match line.rsplit_once(' ') {
        Some((front, last)) => {
            text.push_str(front)?;
            text.push(' ')?;
            put_word(text, last)?;
        }
        None => text.push_str(line)?,
    }
    Ok(text.push('\n')?)
}

fn put_word(text: &mut String, word: &str) -> Result<(), Fail> {
    match word {
        "L" => text.push_str("0000000d43000000000000000000002710")?,
        "P" => text.push_str("0000000441000001")?,
        "Q" => text.push_str("00000004bf000001")?,
        _ => match word.split_at_checked(1) {
            Some((name, tag)) => put_frame(text, name, tag)?,
            None => text.push_str(word)?,
        },
    }
    Ok(())
}

fn put_frame(text: &mut String, name: &str, tag: &str) -> Result<(), Fail> {
    let (head, body) = match name {
        "T" => ("00000010020000", "000000042f732f6100006869"),
        "R" => ("00000009fe0000", "000000796f"),
        "N" => ("00000007fe0000", "020000"),
        "X" => ("00000008420000000000", "78"),
        _ => ("", ""),
    };
    match tag.parse::<u8>() {
        Ok(tag) if !head.is_empty() => {
            text.push_str(head)?;
            write!(text, "{tag:02x}")?;
            text.push_str(body)?;
        }
        _ => {
            text.push_str(name)?;
            text.push_str(tag)?;
        }
    }
    Ok(())
}
