/// Whose form the tunnel's datagrams have. Both are read alike, but for the extension of media.
#[derive(Clone, Copy, Debug, PartialEq, Eq)]
pub enum Tunnel {
    /// This profile's own.
    Own,
    /// That of librist 0.2: bits 10 to 12 of the first word are 1 where a key stands, and null packets may be deleted
    /// without saying how many packets there were.
    Librist,
}
