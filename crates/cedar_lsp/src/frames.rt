//! Messages as they are sent: a head with the length of the body, an empty line, and the body.
use std::alloc::Global;
use std::io;
use std::io::Read;

// The bytes of the longest head, and of the longest body.
const HEAD_LIMIT: usize = 8192;

const BODY_LIMIT: u64 = 64 * 1024 * 1024;

/// What comes next in the input.
#[derive(Drop)]
pub enum Frame {
    /// A message with this body.
    Body(Vec<u8>),
    /// A message whose body is too long to be read. The input goes on after it.
    TooLong,
    /// A head without a length, or with one that can't be trusted. Where the next message begins is unknown.
    Broken,
    /// The input ends, maybe inside a message.
    End,
}

// The head of a message.
enum Head {
    Length(u64),
    Broken,
    End,
}

// A line of a head.
#[derive(Clone, Copy)]
enum Line {
    Empty,
    /// The length of the body, in bytes.
    Length(u64),
    /// Another field.
    Other,
    /// No field, or a length that is no number.
    Broken,
}

/// The next message.
pub fn next_frame<R: Read>(alloc: Global, input: &mut R) -> io::Result<Frame> {
    match next_head(alloc, input)? {
        Head::Length(length) if length > BODY_LIMIT => {
            skip(input, length)?;
            Ok(Frame::TooLong)
        }
        Head::Length(length) => read_body(alloc, input, length),
        Head::Broken => Ok(Frame::Broken),
        Head::End => Ok(Frame::End),
    }
}

// The next head. Empty lines before it are skipped.
fn next_head<R: Read>(alloc: Global, input: &mut R) -> io::Result<Head> {
    let mut line = Vec::new(alloc);
    let mut length = None;
    let mut is_begun = false;
    for _ in 0..HEAD_LIMIT {
        let Some(byte) = next_byte(input)? else {
            return Ok(Head::End);
        };
        if byte != b'\n' {
            line.push(byte)?;
            continue;
        }
        match line_in(line.as_slice()) {
            Line::Empty if is_begun => return Ok(head_with(length)),
            Line::Empty => {}
            Line::Length(bytes) if length.is_none() => {
                length = Some(bytes);
                is_begun = true;
            }
            Line::Other => is_begun = true,
            Line::Length(_) | Line::Broken => return Ok(Head::Broken),
        }
        line.clear();
    }
    Ok(Head::Broken)
}

// A head that ends, with its length.
fn head_with(length: Option<u64>) -> Head {
    match length {
        Some(length) => Head::Length(length),
        None => Head::Broken,
    }
}

// The next byte.
fn next_byte<R: Read>(input: &mut R) -> io::Result<Option<u8>> {
    let mut byte = [0];
    let count = input.read(&mut byte)?;
    Ok(if count == 0 { None } else { Some(byte[0]) })
}

// What a line of a head says.
fn line_in(bytes: &[u8]) -> Line {
    let bytes = bytes.trim_ascii();
    if bytes.is_empty() {
        return Line::Empty;
    }
    let Ok(line) = str::from_utf8(bytes) else {
        return Line::Broken;
    };
    match line.split_once(':') {
        Some((name, value)) if name.trim().eq_ignore_ascii_case("content-length") => {
            length_in(value.trim())
        }
        Some(_) => Line::Other,
        None => Line::Broken,
    }
}

// The length that a field gives.
fn length_in(value: &str) -> Line {
    if !value.bytes().all(|byte| byte.is_ascii_digit()) {
        return Line::Broken;
    }
    match value.parse::<u64>() {
        Ok(length) => Line::Length(length),
        Err(_) => Line::Broken,
    }
}

// A body. It is read as it arrives, so no more memory is requested than twice what was sent.
fn read_body<R: Read>(alloc: Global, input: &mut R, length: u64) -> io::Result<Frame> {
    let mut body = Vec::new(alloc);
    input.take(length).read_to_end(&mut body)?;
    if (body.len() as u64) < length {
        return Ok(Frame::End);
    }
    Ok(Frame::Body(body))
}

// Skips a body.
fn skip<R: Read>(input: &mut R, length: u64) -> io::Result<()> {
    io::copy(&mut input.take(length), &mut io::sink())?;
    Ok(())
}
