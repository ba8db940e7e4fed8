//! What the objects of a host tell, as one value of the contracts.
ghost use Rattle.run_parts.specs.Objects.{Tells, TellsLive};

use outside_host::Host;

/// Each host: a contract names what its objects tell by one word.
pub trait Telling: Host {
    /// What its sources, its sinks and its random words tell.
    ghost objects: { Tells Self.Input Self.Output Self.Random };

    /// What its links and its clocks tell.
    ghost live: { TellsLive Self.Wire Self.Time };
}

impl<H: Host> Telling for H {
    ghost objects = { record {
      remaining = H.Input.remaining;
      payloads = H.Input.payloads;
      read_faults = H.Input.faults;
      contents = H.Output.contents;
      write_faults = H.Output.faults;
      words = H.Random.remaining;
      word_faults = H.Random.faults;
    } };

    ghost live = { record {
      line = record {
        taken = H.Wire.taken;
        knows = H.Wire.knows;
        faults = H.Wire.faults;
        reads = H.Wire.reads;
        ends = H.Wire.ends;
      };
      moments = H.Time.moments;
    } };
}
