//! Laws of the format.
ghost use Rattle.std.specs.Prelude.{◌≡◌, ◌++◌, ℕ, List};
ghost use Rattle.pcap_file.specs.declared.bad.PcapKind.{PcapKind};
ghost use Rattle.pcap_file.specs.declared.bad.PcapKind.TheVariants.{TooLong};
ghost use Rattle.pcap_file.specs.declared.format.ByteOrder.{ByteOrder};
ghost use Rattle.pcap_file.specs.declared.format.Format.{Format};
ghost use Rattle.pcap_file.specs.Pcap.{Packet, Fits, spelling, IsPcap, Captured, HasFrames};
ghost use Rattle.pcap_file.specs.Tests.{BadAt};

/// In one byte order no record's spelling is a proper prefix of another's.
pub fn one_spelling()
    ensures { (order : ByteOrder) (p q : Packet) (x y : List ℕ) → Fits p → Fits q
        → spelling order p ++ x ≡ spelling order q ++ y → (p ≡ q) × (x ≡ y) }
{}

/// Octets are a pcap file of one format, and of one list of records.
pub fn one_file()
    ensures { (format other : Format) (packets others : List Packet) (octets : List ℕ)
        → IsPcap format packets octets → IsPcap other others octets
        → (format ≡ other) × (packets ≡ others) }
{}

/// A pcap file has one list of frames.
pub fn one_list_of_frames()
    ensures { (frames others : List Captured) (octets : List ℕ)
        → HasFrames frames octets → HasFrames others octets → frames ≡ others }
{}

/// Where a test but that of the greatest offset fails, the octets are no pcap file.
pub fn no_file_at_fault()
    ensures { (octets : List ℕ) (kind : PcapKind) (at : ℕ) (format : Format) (packets : List Packet)
        → BadAt octets kind at → (kind ≡ TooLong → ⊥) → IsPcap format packets octets → ⊥ }
{}
