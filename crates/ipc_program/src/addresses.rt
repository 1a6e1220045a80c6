//! Addresses of files, and the modes of these.

ghost use Rattle.std.specs.Prelude.{◌≡◌, ◌≤◌, ◌-◌};
ghost use Rattle.std.specs.List.{list_all};
ghost use Rattle.ipc_words.specs.Numbers.{is_octal_digit};
ghost use Rattle.ipc_program.specs.Addresses.{are_host_and_port, is_endpoint, is_host_and_port, is_unix, is_unix_users, mode_of_word};

use ipc_words::read_decimal;

/// The highest port.
const HIGHEST_PORT: u64 = 65_535;

/// Whether the address is that of a file: `unix:` and its path.
pub fn is_unix(address: &str) -> bool
    ensures { result ≡ is_unix address.now }
{
    address.as_bytes().starts_with(b"unix:")
}

/// Whether the address is that of a folder with a socket for each user: `unix-users:` and its path.
pub fn is_unix_users(address: &str) -> bool
    ensures { result ≡ is_unix_users address.now }
{
    address.as_bytes().starts_with(b"unix-users:")
}

/// Whether the address is that of one listener: `unix:` and a path, or `HOST:PORT`.
pub fn is_endpoint(address: &str) -> bool
    ensures { result ≡ is_endpoint address.now }
{
    if is_unix(address) {
        return address.len() > 5;
    }
    !is_unix_users(address) && is_host_and_port(address)
}

/// Whether something stands in front of the last colon, and behind it a port.
fn is_host_and_port(address: &str) -> bool
    ensures { result ≡ is_host_and_port address.now }
{
    match address.rsplit_once(':') {
        Some((host, port)) => are_host_and_port(host, port),
        None => false,
    }
}

fn are_host_and_port(host: &str, port: &str) -> bool
    ensures { result ≡ are_host_and_port (host.now, port.now) }
{
    !host.is_empty() && read_decimal(port, HIGHEST_PORT).is_some()
}

/// The permission bits that a word writes, as `0600`: a zero and three octal digits.
pub fn read_mode(word: &str) -> Option<u32>
    ensures { result ≡ mode_of_word word.now }
{
    let digits = word.as_bytes();
    if digits.len() != 4 || digits[0] != b'0' || !are_octal(digits) {
        return None;
    }
    Some(value_of(digits[1]) * 64 + value_of(digits[2]) * 8 + value_of(digits[3]))
}

fn are_octal(digits: &[u8]) -> bool
    ensures { result ≡ list_all is_octal_digit digits.now }
{
    digits.iter().all(|digit| matches!(*digit, b'0'..=b'7'))
}

/// The value of a digit.
fn value_of(digit: u8) -> u32
    ensures value { result ≡ digit - 48 }
    ensures bound { result ≤ 207 }
{
    u32::from(digit.saturating_sub(b'0'))
}
