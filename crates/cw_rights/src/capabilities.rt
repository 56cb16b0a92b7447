//! Capabilities, and what a primitive does to them.

ghost use Rattle.std.specs.Prelude.{◌≡◌, ◌↔◌, ◌<◌};
ghost use Rattle.cw_rights.specs.Capabilities.{hold_of, allowed_on, allowed, IsAllowed, IsDescriptorBelow, KeepsHeld, KeepsMore, applied, opened, closed};

/// A set of rights: bit i stands for the right with the number i.
///
/// The numbers are this project's own, from 0: CAP_READ, CAP_WRITE, CAP_SEEK, CAP_FSTAT, CAP_FTRUNCATE,
/// CAP_FSYNC, CAP_FCNTL, CAP_IOCTL, CAP_EVENT, CAP_ACCEPT, CAP_LISTEN, CAP_LOOKUP. All twelve are `0xfff`.
#[derive(Clone, Copy, Drop, PartialEq, Eq)]
pub struct Rights(pub u16);

/// All twelve rights, as bits.
pub const ALL_RIGHTS: u16 = 0xfff;

/// What a process holds of one descriptor.
#[derive(Clone, Copy, Drop, PartialEq, Eq)]
pub enum Hold {
    Closed,
    Open(Rights),
}

/// Held capabilities: ambient authority (not in capability mode), and a hold for each descriptor of a policy.
#[derive(Clone, Copy, Drop, PartialEq, Eq)]
pub struct Caps {
    pub amb: bool,
    pub holds: [Hold; 8],
}

/// A limit of the rights of a descriptor, named by its number in the policy: cap_rights_limit(2).
#[derive(Clone, Copy, Drop, PartialEq, Eq)]
pub struct Limit {
    pub descriptor: u8,
    pub keep: Rights,
}

/// What the weaver tries at a seam.
#[derive(Clone, Copy, Drop, PartialEq, Eq)]
pub enum Primitive {
    Limit(Limit),
    Enter,
    Split,
}

/// Whether a limit may be granted: `NotCapable` is ENOTCAPABLE, `BadDescriptor` is EBADF.
#[derive(Clone, Copy, Drop, PartialEq, Eq)]
pub enum Allowed {
    Yes,
    NotCapable,
    BadDescriptor,
}

/// Whether a descriptor may be limited to these rights: no more than it holds (cap_rights_limit(2), ENOTCAPABLE and EBADF).
fn allowed_on(hold: Hold, keep: Rights) -> Allowed
    ensures { result ≡ allowed_on hold keep.0 }
{
    match hold {
        Hold::Closed => Allowed::BadDescriptor,
        Hold::Open(held) if keep.0 & held.0 == keep.0 => Allowed::Yes,
        Hold::Open(_) => Allowed::NotCapable,
    }
}

/// Whether a limit may be granted now: not on a closed descriptor, and not where it keeps a right that isn't held.
#[tactic(auto, using(crate::proofs::Limits::closed_is))]
pub fn limit_allowed(caps: &Caps, limit: Limit) -> Allowed
    requires { limit.descriptor < 8 }
    ensures same { result ≡ allowed caps.now limit }
    ensures closed { (result ≡ Allowed.BadDescriptor) ↔ (hold_of caps.now limit.descriptor ≡ Hold.Closed) }
    ensures yes { (result ≡ Allowed.Yes) ↔ KeepsHeld caps.now limit }
    ensures not_capable { (result ≡ Allowed.NotCapable) ↔ KeepsMore caps.now limit }
{
    allowed_on(caps.holds[limit.descriptor as usize], limit.keep)
}

/// The effect of a granted primitive: a limit sets the rights of its descriptor to those that it keeps, enter
/// ends ambient authority, and a split changes nothing. All else stays.
pub fn apply(caps: &mut Caps, prim: Primitive)
    requires number { IsDescriptorBelow 8 prim }
    requires allowed { IsAllowed caps.old prim }
    ensures { caps.new ≡ applied caps.old prim }
{
    match prim {
        Primitive::Limit(limit) => open_hold(caps, limit.descriptor, limit.keep),
        Primitive::Enter => caps.amb = false,
        Primitive::Split => {}
    }
}

/// Sets a descriptor's hold to open with these rights, and leaves all else.
pub fn open_hold(caps: &mut Caps, descriptor: u8, rights: Rights)
    requires { descriptor < 8 }
    ensures { caps.new ≡ opened caps.old descriptor rights }
{
    caps.holds[descriptor as usize] = Hold::Open(rights);
}

/// Sets a descriptor's hold to closed, and leaves all else.
pub fn close_hold(caps: &mut Caps, descriptor: u8)
    requires { descriptor < 8 }
    ensures { caps.new ≡ closed caps.old descriptor }
{
    caps.holds[descriptor as usize] = Hold::Closed;
}
