//! Hiding of the User-Password of an Access-Request (RFC 2865, section 5.2).
#![tactic(auto)]

mod blocks;
pub mod laws;

ghost use Rattle.std.specs.Prelude.{◌≡◌, ◌≤◌, ◌-◌, ◌++◌, nat_le, IsTrue, is_ok, IfOk, OnOk, OnErr, length, take, replicate};
ghost use Rattle.password_hiding.specs.Hiding.{Hides, padded, padded_length, trimmed, is_hidden_length, hidden_form, plain_form};

use crate::blocks::{BLOCK, hide_blocks, unhide_blocks};
use std::marker::Model;
use thiserror::Error;

/// The most octets that a password has.
const MOST: usize = 128;

/// The password has over 128 octets.
#[derive(Clone, Copy, Debug, PartialEq, Eq, Error)]
#[error("password too long")]
pub struct TooLong;

/// The number of octets is not 16, 32, 48, .. up to 128.
#[derive(Clone, Copy, Debug, PartialEq, Eq, Error)]
#[error("length of no hidden password")]
pub struct BadLength;

/// The hidden octets of a password. Contracts see them as a list.
#[derive(Drop)]
pub struct Hidden {
    octets: [u8; MOST],
    length: usize,
}

impl Model for Hidden {
    ghost use Rattle.std.specs.Prelude.{ℕ, List, IsTrue, take};
    ghost use Rattle.password_hiding.specs.Hiding.{is_hidden_length};

    ghost Value = { List ℕ };

    ghost view = { λ h. take h.length h.octets };

    ghost invariant = { λ h. IsTrue (is_hidden_length h.length) };
}

impl Hidden {
    /// The octets: 16, 32, 48, .. up to 128.
    pub fn as_slice(&self) -> &[u8]
        ensures value { result.now ≡ self.now }
        ensures size { IsTrue (is_hidden_length (length self.now)) }
    {
        &self.octets[..self.length]
    }
}

/// The least length of hidden octets that has room for so many.
fn length_with_padding(length: usize) -> usize
    requires { length ≤ 128 }
    ensures { result ≡ padded_length length }
{
    if length == 0 {
        BLOCK
    } else {
        (length + BLOCK - 1) / BLOCK * BLOCK
    }
}

/// The password with zeros up to the longest length.
fn with_zeros(password: &[u8]) -> [u8; MOST]
    requires { length password.now ≤ 128 }
    ensures { result ≡ password.now ++ replicate (128 - length password.now) 0 }
{
    let mut octets = [0; MOST];
    octets[..password.len()].copy_from_slice(password);
    octets
}

/// Hides a password of up to 128 octets under the secret and the Request Authenticator.
pub fn hide(secret: &[u8], authenticator: &[u8; 16], password: &[u8]) -> Result<Hidden, TooLong>
    ensures short { is_ok result ≡ nat_le (length password.now) 128 }
    ensures hides { IfOk result
        (λ hidden. Hides secret.now authenticator.now (padded password.now) hidden) }
    ensures form { IfOk result
        (λ hidden. hidden ≡ hidden_form secret.now authenticator.now password.now) }
{
    if password.len() > MOST {
        return Err(TooLong);
    }
    let length = length_with_padding(password.len());
    let mut octets = with_zeros(password);
    hide_blocks(secret, authenticator, &mut octets[..length]);
    Ok(Hidden { octets, length })
}

/// The length without the zeros at the end.
fn length_without_zeros(octets: &[u8]) -> usize
    ensures length { result ≡ length (trimmed octets.now) }
    ensures octets { take result octets.now ≡ trimmed octets.now }
{
    let mut length = octets.len();
    while length > 0 && octets[length - 1] == 0 {
        length -= 1;
    }
    length
}

/// Unhides a password in place, and gives its length without the zeros at its end. The octets are unchanged where
/// their number is not 16, 32, 48, .. up to 128.
pub fn unhide(secret: &[u8], authenticator: &[u8; 16], value: &mut [u8]) -> Result<usize, BadLength>
    ensures sized { is_ok result ≡ is_hidden_length (length value.old) }
    ensures hides { OnOk result (Hides secret.now authenticator.now value.new value.old) }
    ensures length { IfOk result (λ n. n ≡ length (trimmed value.new)) }
    ensures plain { IfOk result
        (λ n. take n value.new ≡ plain_form secret.now authenticator.now value.old) }
    ensures err { OnErr result (value.new ≡ value.old) }
{
    let length = value.len();
    if length < BLOCK || length > MOST || length % BLOCK != 0 {
        return Err(BadLength);
    }
    unhide_blocks(secret, authenticator, value);
    Ok(length_without_zeros(value))
}
