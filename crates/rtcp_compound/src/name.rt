//! The name of RIST's application packets (VSF TR-06-1).
ghost use Rattle.std.specs.Prelude.{◌≡◌};
ghost use Rattle.rtcp_compound.specs.Name.{is_rist as is_name};

/// The name `RIST`.
pub const RIST_NAME: [u8; 4] = *b"RIST";

/// Whether an application's packet is one of RIST.
pub fn is_rist(name: &[u8; 4]) -> bool
    ensures { result ≡ is_name name.now }
{
    name[0] == b'R' && name[1] == b'I' && name[2] == b'S' && name[3] == b'T'
}
