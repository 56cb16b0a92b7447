//! Names in the texts of policies: rights, and the form of C names.

ghost use Rattle.std.specs.Prelude.{◌≡◌, ◌≤◌, option_map, IfSome};
ghost use Rattle.std.specs.List.{list_all};
ghost use Rattle.cw_rights.specs.Names.{all_rights, mask_in, single_rights, joint_rights, right_mask};
ghost use Rattle.cw_rights.specs.Valid.{is_name_start, is_name_byte, is_name};

use crate::capabilities::Rights;

/// Whether a byte may begin a C name: an ASCII letter or `_` (ISO C11, 6.4.2.1).
pub fn is_name_start(byte: u8) -> bool
    ensures { result ≡ is_name_start byte }
{
    byte >= b'A' && byte <= b'Z' || byte >= b'a' && byte <= b'z' || byte == b'_'
}

/// Whether a byte may stand in a C name: an ASCII letter, a digit or `_`.
pub fn is_name_byte(byte: u8) -> bool
    ensures { result ≡ is_name_byte byte }
{
    is_name_start(byte) || byte >= b'0' && byte <= b'9'
}

/// Whether all bytes may stand in a C name.
fn all_name_bytes(bytes: &[u8]) -> bool
    ensures { result ≡ list_all is_name_byte bytes.now }
{
    bytes.iter().all(|b| is_name_byte(*b))
}

/// Whether a text has the form of a C name: a letter or `_`, and then letters, digits and `_`.
pub fn is_name(name: &[u8]) -> bool
    ensures { result ≡ is_name name.now }
{
    match name {
        [] => false,
        [first, rest @ ..] => is_name_start(*first) && all_name_bytes(rest),
    }
}

/// The set of rights that a name stands for in a policy of this format, and None where the name is none of a right.
///
/// `CAP_READ` to `CAP_LOOKUP` are names of rights(4), each the set of its own right. In format 2 there are two
/// further names, this project's own abbreviations: `CAP_PREAD` stands for CAP_SEEK with CAP_READ, and `CAP_PWRITE`
/// for CAP_SEEK with CAP_WRITE.
#[tactic(auto, using(crate::proofs::Named::mask_within, crate::proofs::Named::mask_first, crate::proofs::Named::mask_behind))]
pub fn right_named(name: &[u8], format: u8) -> Option<Rights>
    ensures is { option_map (λ r. r.0) result ≡ right_mask format name.now }
    ensures within { IfSome result (λ r. r.0 ≤ all_rights) }
{
    match single_right_named(name) {
        Some(right) => Some(right),
        None if format == 2 => joint_rights_named(name),
        None => None,
    }
}

/// The same for the names of every format.
fn single_right_named(name: &[u8]) -> Option<Rights>
    ensures { option_map (λ r. r.0) result ≡ mask_in single_rights name.now }
{
    match name {
        b"CAP_READ" => Some(Rights(0x1)),
        b"CAP_WRITE" => Some(Rights(0x2)),
        b"CAP_SEEK" => Some(Rights(0x4)),
        b"CAP_FSTAT" => Some(Rights(0x8)),
        b"CAP_FTRUNCATE" => Some(Rights(0x10)),
        b"CAP_FSYNC" => Some(Rights(0x20)),
        b"CAP_FCNTL" => Some(Rights(0x40)),
        b"CAP_IOCTL" => Some(Rights(0x80)),
        b"CAP_EVENT" => Some(Rights(0x100)),
        b"CAP_ACCEPT" => Some(Rights(0x200)),
        b"CAP_LISTEN" => Some(Rights(0x400)),
        b"CAP_LOOKUP" => Some(Rights(0x800)),
        _ => None,
    }
}

/// The same for the names of format 2 that stand for two rights.
fn joint_rights_named(name: &[u8]) -> Option<Rights>
    ensures { option_map (λ r. r.0) result ≡ mask_in joint_rights name.now }
{
    match name {
        b"CAP_PREAD" => Some(Rights(0x5)),
        b"CAP_PWRITE" => Some(Rights(0x6)),
        _ => None,
    }
}
