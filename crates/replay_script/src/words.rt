//! The words of a line.

use crate::command::LineFault;
use hex::FromHexError;
use mux_history::{ServerId, SessionId};
use std::alloc::Global;

/// The first word and what stands behind its space.
pub fn split_word(line: &str) -> Result<(&str, &str), LineFault> {
    line.split_once(' ').ok_or(LineFault::Unreadable)
}

/// One or more digits; a sign is none.
pub fn parse_number(digits: &str) -> Result<u64, LineFault> {
    if !digits.bytes().all(|byte| byte.is_ascii_digit()) {
        return Err(LineFault::Unreadable);
    }
    digits.parse::<u64>().map_err(|_| LineFault::Unreadable)
}

/// `cN`
pub fn parse_client(id: &str) -> Result<u64, LineFault> {
    parse_prefixed('c', id)
}

/// `sN`
pub fn parse_server(id: &str) -> Result<ServerId, LineFault> {
    parse_prefixed('s', id)
}

/// `hN`
pub fn parse_hand(id: &str) -> Result<u64, LineFault> {
    parse_prefixed('h', id)
}

/// `cN` or `sN`
pub fn parse_session(id: &str) -> Result<SessionId, LineFault> {
    if id.starts_with('c') {
        return Ok(SessionId::Client(parse_client(id)?));
    }
    Ok(SessionId::Server(parse_server(id)?))
}

fn parse_prefixed(prefix: char, id: &str) -> Result<u64, LineFault> {
    match id.strip_prefix(prefix) {
        Some(digits) => parse_number(digits),
        None => Err(LineFault::Unreadable),
    }
}

/// One byte or more, two digits each.
pub fn parse_hex(alloc: Global, digits: &str) -> Result<Vec<u8>, LineFault> {
    if digits.is_empty() {
        return Err(LineFault::Unreadable);
    }
    match hex::decode(alloc, digits) {
        Ok(bytes) => Ok(bytes),
        Err(FromHexError::OutOfMemory) => Err(LineFault::Memory),
        Err(_) => Err(LineFault::Unreadable),
    }
}
