//! The host of the system. What its objects give and take is not told: the trusted edge of the system.
ghost use Rattle.std.specs.Prelude.{◌≡◌, ℕ, Bool, true, false, Some, None, Ok, Err, IfOk, OnErr};
ghost use Rattle.outside_io.specs.Causes.{Rose};
ghost use Rattle.outside_io.specs.Real.{silent};
ghost use Rattle.outside_io.specs.Told.{IsEmpty};
ghost use Rattle.link_channels.specs.declared.channel.Channel.{Channel as ChannelValue};
ghost use Rattle.outside_net.specs.Real.{knows_in_link, stated_in, IsOpenedAt};
ghost use Rattle.end_sign.specs.Status.{answers_of};
ghost use Rattle.end_sign.specs.Until.{link_behind, sign_of};
ghost use Rattle.media_address.specs.Address.{address_of};
ghost use Rattle.media_address.specs.declared.bad.AddressBad.{AddressBad};
ghost use Rattle.outside_host.specs.RealHost.{untold, file_read, in_datagrams, is_network, is_senders, FailsAlone, IsInputNamed, IsOutputNamed};
ghost use Rattle.outside_host.specs.Shelf.{nowhere, HasHostCause, IsUnwritten, KnowsStated};

use crate::counts::ReportText;
use crate::real_input::{NamedInput, NetworkInput, RealInput};
use crate::real_output::RealOutput;
use crate::record::RecordFile;
use crate::room::{RoomText, is_small};
use crate::terminal::{ShownLine, StandingLine, is_error_terminal, is_output_terminal, length_of};
use crate::trouble::{Reason, Thing, Trouble};
use crate::{Count, Host, HostBad};
use datagram_ends::{DatagramSink, UdpOut, UdpSource};
use end_sign::{ProcessSign, Until};
use gathered_source::Gathered;
use link_channels::{MAX_LINKS, Profile};
use media_address::{MediaAddress, address_of};
use metered_link::{LineOutput, Lines, Metered};
use outside_io::{Entropy, FileIdentity, RealEntropy, create_sink, is_named, open_source};
use outside_net::{LinkSpec, ProcessClock, Role, UdpLink, own_address};
use progress_source::Progress;
use recorded_link::{Recorded, Recording};
use std::alloc::Global;
use std::fs::{self, Files, OpenFile};
use std::io::{Eprint, Input, Print, Printer};
use std::marker::Model;
use std::net::{Net, UdpSocket};
use std::random::RandomSource;
use std::time::Clock;

/// The system's files, its standard streams under the name `-`, streams in datagrams of UDP under their addresses, links over UDP,
/// the process clock and the system's random source. A file that is read as the source isn't opened as the sink: that would empty it. All clocks have one start. Where the
/// system asks the program to end the source comes to its end, and so does each link but one that a sender sends on, which has
/// still to answer requests. With memory the host keeps the names of the source and the sink that it opened last, and what it
/// couldn't open last.
#[derive(Drop)]
pub struct RealHost<'a, R: Files> {
    rt: &'a R,
    faults: u64,
    read: Option<FileIdentity>,
    clock: Option<ProcessClock<'a, R>>,
    alloc: Option<Global>,
    source: Option<String>,
    sink: Option<String>,
    trouble: Option<Trouble>,
    /// What the links that receive are recorded to.
    record: Option<RecordFile<'a, R>>,
    /// How many of them are.
    recorded: u8,
    /// How the links that are handed out tell what they count.
    statistics: Option<Statistics<R::File>>,
    /// How many links were handed out.
    links: u8,
    /// Whether it was said that the system keeps too few octets of datagrams.
    has_told_room: bool,
    /// The line that says how far the source was read, where one is shown.
    line: Option<StandingLine>,
}

/// From one line of a link to the next, in milliseconds, and the file that they are put to, unless that is the error output.
#[derive(Drop)]
struct Statistics<F> {
    every: u64,
    file: Option<F>,
}

impl<'a, R: Files> Model for RealHost<'a, R> {
    ghost use Rattle.outside_host.specs.RealHost.{RealHostState};

    ghost Value = { RealHostState };

    ghost view = { λ host. record { faults = host.faults; read = host.read } };
}

impl<'a, R: Files> RealHost<'a, R> {
    /// A host of which no call has failed.
    pub fn new(rt: &'a R) -> RealHost<'a, R>
        ensures value { result ≡ record { faults = 0; read = None } }
    {
        RealHost {
            rt,
            faults: 0,
            read: None,
            clock: None,
            alloc: None,
            source: None,
            sink: None,
            trouble: None,
            record: None,
            recorded: 0,
            statistics: None,
            links: 0,
            has_told_room: false,
            line: None,
        }
    }

    /// A host of which no call has failed, with memory for names.
    pub fn with_memory(rt: &'a R, alloc: Global) -> RealHost<'a, R>
        ensures value { result ≡ record { faults = 0; read = None } }
    {
        let mut host = RealHost::new(rt);
        host.alloc = Some(alloc);
        host
    }

    /// What couldn't be opened last, and why, where that is known.
    pub fn trouble(&self) -> Option<&Trouble> {
        self.trouble.as_ref()
    }

    /// The name of the source that was opened last, where there was memory for it.
    pub fn source_name(&self) -> Option<&str> {
        self.source.as_deref()
    }

    /// The name of the sink that was opened last, where there was memory for it.
    pub fn sink_name(&self) -> Option<&str> {
        self.sink.as_deref()
    }

    /// A name, where there is memory for it.
    fn kept(&self, name: &str) -> Option<String> {
        String::from_str(self.alloc?, name).ok()
    }

    /// A source or a sink of this name couldn't be opened.
    fn refuse_name(&mut self, name: &str, reason: Reason) -> HostBad
        ensures value { result ≡ HostBad.Failed }
        ensures cause { Rose self.old.faults self.new.faults }
        ensures read { self.new.read ≡ self.old.read }
    {
        self.trouble = match self.kept(name) {
            Some(name) => Some(Trouble::new(Thing::Name(name), reason)),
            None => None,
        };
        self.refuse()
    }

    /// One more call failed.
    fn refuse(&mut self) -> HostBad
        ensures value { result ≡ HostBad.Failed }
        ensures cause { Rose self.old.faults self.new.faults }
        ensures read { self.new.read ≡ self.old.read }
    {
        self.faults = self.faults.saturating_add(1);
        HostBad::Failed
    }
}

impl<'a, R: Files + Eprint> RealHost<'a, R> {
    /// Says on the error output, once, where the system keeps fewer octets of datagrams than a link asks for.
    fn tell_room(&mut self, link: &UdpLink)
        ensures same { self.new ≡ self.old }
    {
        if self.has_told_room {
            return;
        }
        if let Some(octets) = link.receive_buffer() {
            if is_small(octets) {
                self.has_told_room = true;
                // A line that can't be written changes no answer.
                let _ = self.rt.eprintln(RoomText(octets));
            }
        }
    }
}

/// What is handed out as a source.
type SourceOf<'a, R> = Progress<InputOf<'a, R>, ProcessClock<'a, R>, ShownLine>;

/// What is read of it.
type InputOf<'a, R> = RealInput<'a, R, <R as Files>::File, <R as Input>::Reader>;

/// What is handed out as a sink.
type SinkOf<'a, R> = RealOutput<'a, R, <R as Files>::File, Printer<'a, R>>;

/// Where the lines of links are put.
type LineFile<R> = Lines<LineOutput<<R as Files>::File>>;

/// What a link's datagrams are recorded to.
type LinkRecording<'a, R> = Recording<RecordFile<'a, R>, ProcessClock<'a, R>>;

impl<'a, R: Files + Eprint + Clock> RealHost<'a, R> {
    /// The process clock, with the one start that all of them have.
    fn started_clock(&mut self) -> Result<ProcessClock<'a, R>, HostBad>
        ensures cause { HasHostCause self.old.faults self.new.faults result }
        ensures only { FailsAlone result }
        ensures stays { self.new.read ≡ self.old.read }
    {
        if let Some(clock) = &self.clock {
            return Ok(clock.with_same_start());
        }
        match ProcessClock::start(self.rt) {
            Ok(clock) => {
                self.clock = Some(clock.with_same_start());
                Ok(clock)
            }
            Err(_) => Err(self.refuse()),
        }
    }

    /// The recording of the next link in a role, where what comes is recorded: the link's number is its place among those that
    /// receive.
    fn recording(&mut self, role: Role) -> Result<Option<LinkRecording<'a, R>>, HostBad>
        ensures cause { HasHostCause self.old.faults self.new.faults result }
        ensures only { FailsAlone result }
        ensures stays { self.new.read ≡ self.old.read }
    {
        let place = self.recorded;
        if !receives(role) || usize::from(place) >= MAX_LINKS {
            return Ok(None);
        }
        let file = match &self.record {
            Some(file) => file.again(),
            None => return Ok(None),
        };
        match file {
            Ok(file) => {
                let clock = self.started_clock()?;
                self.recorded = place + 1;
                Ok(Some(Recording::onward(file, clock, place)))
            }
            Err(_) => Err(self.refuse()),
        }
    }
}

impl<'a, R: Files + Clock> RealHost<'a, R> {
    /// One more link, which tells what it counts where that was asked for. It tells nothing where the system gives it no clock or
    /// no way to the file.
    fn metered<L>(&mut self, link: L) -> Metered<L, ProcessClock<'a, R>, LineFile<R>>
        ensures link { result.link ≡ link }
        ensures same { self.new ≡ self.old }
    {
        let place = self.links;
        self.links = place.saturating_add(1);
        let (Some(statistics), Some(alloc)) = (&self.statistics, self.alloc) else {
            return Metered::silent(link);
        };
        let output = match &statistics.file {
            None => LineOutput::error(),
            Some(file) => match file.try_clone() {
                Ok(file) => LineOutput::file(file),
                Err(_) => return Metered::silent(link),
            },
        };
        let clock = match &self.clock {
            Some(clock) => clock.with_same_start(),
            None => match ProcessClock::start(self.rt) {
                Ok(clock) => {
                    self.clock = Some(clock.with_same_start());
                    clock
                }
                Err(_) => return Metered::silent(link),
            },
        };
        let every = statistics.every.saturating_mul(1000);
        Metered::over(link, clock, Lines::over(alloc, output), place, every)
    }
}

impl<'a, R: Files + Input + Net + Clock> RealHost<'a, R> {
    /// The source of a name, which shows how far it is read where the error output is a terminal. It shows nothing where the system
    /// gives it no clock or no memory.
    fn showing(&mut self, name: &str, input: InputOf<'a, R>) -> SourceOf<'a, R>
        ensures source { result.source ≡ input.entry }
        ensures same { self.new ≡ self.old }
    {
        self.line = None;
        let (Some(alloc), true) = (self.alloc, is_error_terminal()) else {
            return Progress::silent(input);
        };
        let (Some(line), Ok(clock)) = (StandingLine::none(alloc), ProcessClock::start(self.rt))
        else {
            return Progress::silent(input);
        };
        self.line = line.again();
        let total = length_of(self.rt, name);
        Progress::over(input, total, clock, ShownLine::over(alloc, line))
    }

    /// The file of this name, or standard input. What is read is taken down.
    fn named_source(&mut self, name: &str) -> Result<SourceOf<'a, R>, HostBad>
        requires name { address_of name.now ≡ Ok None }
        ensures cause { HasHostCause self.old.faults self.new.faults result }
        ensures only { FailsAlone result }
        ensures named { IfOk result (λ source. IsInputNamed name.now source.source) }
        ensures datagrams { IfOk result (λ source. in_datagrams source.source ≡ is_network name.now) }
        ensures known { IfOk result (λ source. self.new.read ≡ file_read source.source) }
        ensures stays { OnErr result (self.new.read ≡ self.old.read) }
    {
        match open_source(self.rt, name) {
            Ok(source) => {
                self.read = source.file();
                self.source = self.kept(name);
                let input = NamedInput::over(self.rt, name, source);
                Ok(self.showing(name, RealInput::Named(Gathered::over(input))))
            }
            Err(error) => Err(self.refuse_name(name, Reason::System(error))),
        }
    }

    /// What comes in datagrams to an address, once the first is there or the program is to end.
    fn network_source(
        &mut self,
        name: &str,
        address: &MediaAddress,
    ) -> Result<SourceOf<'a, R>, HostBad>
        requires name { address_of name.now ≡ Ok (Some address.now) }
        ensures cause { HasHostCause self.old.faults self.new.faults result }
        ensures only { FailsAlone result }
        ensures named { IfOk result (λ source. IsInputNamed name.now source.source) }
        ensures datagrams { IfOk result (λ source. in_datagrams source.source ≡ is_network name.now) }
        ensures known { IfOk result (λ source. self.new.read ≡ file_read source.source) }
        ensures stays { OnErr result (self.new.read ≡ self.old.read) }
    {
        match UdpSource::open(self.rt, address, ProcessSign::new(self.rt)) {
            Ok(mut source) => {
                self.read = None;
                self.source = self.kept(name);
                source.await_first();
                let input = NetworkInput::over(source);
                Ok(Progress::silent(RealInput::Network(input)))
            }
            Err(error) => Err(self.refuse_name(name, Reason::System(error))),
        }
    }
}

impl<'a, R: Files> RealHost<'a, R> {
    /// The line that goes before anything is put to the sink of this name: the sink writes to a terminal too.
    fn line_before(&self, name: &str) -> Option<StandingLine> {
        if name != "-" || !is_output_terminal() {
            return None;
        }
        self.line.as_ref()?.again()
    }
}

impl<'a, R: Files + Print + Eprint + RandomSource + Net + Clock> RealHost<'a, R> {
    /// A new file of this name, or standard output.
    fn named_sink(&mut self, name: &str) -> Result<SinkOf<'a, R>, HostBad>
        requires name { address_of name.now ≡ Ok None }
        ensures cause { HasHostCause self.old.faults self.new.faults result }
        ensures only { FailsAlone result }
        ensures named { IfOk result (λ sink. IsOutputNamed name.now sink) }
        ensures stays { self.new.read ≡ self.old.read }
    {
        if is_named(self.rt, name, self.read) {
            return Err(self.refuse_name(name, Reason::IsSource));
        }
        match create_sink(self.rt, name) {
            Ok(sink) => {
                self.sink = self.kept(name);
                let line = self.line_before(name);
                Ok(RealOutput::Named(sink, line))
            }
            Err(error) => Err(self.refuse_name(name, Reason::System(error))),
        }
    }

    /// Datagrams to an address. The first RTP number and the source are random (RFC 3550, section 5.1).
    fn network_sink(&mut self, name: &str, address: &MediaAddress) -> Result<SinkOf<'a, R>, HostBad>
        requires name { address_of name.now ≡ Ok (Some address.now) }
        ensures cause { HasHostCause self.old.faults self.new.faults result }
        ensures only { FailsAlone result }
        ensures named { IfOk result (λ sink. IsOutputNamed name.now sink) }
        ensures stays { self.new.read ≡ self.old.read }
    {
        let clock = self.started_clock()?;
        let number = (self.random_word()? >> 16) as u16;
        let ssrc = self.random_word()?;
        match UdpOut::open(self.rt, address) {
            Ok(out) => {
                self.sink = self.kept(name);
                let sink = DatagramSink::over(address.form, out, clock, number, ssrc);
                Ok(RealOutput::Network(sink))
            }
            Err(error) => Err(self.refuse_name(name, Reason::System(error))),
        }
    }

    /// A word of the system's random source.
    fn random_word(&mut self) -> Result<u32, HostBad>
        ensures cause { HasHostCause self.old.faults self.new.faults result }
        ensures only { FailsAlone result }
        ensures stays { self.new.read ≡ self.old.read }
    {
        match RealEntropy::new(self.rt).word() {
            Ok(word) => Ok(word),
            Err(_) => Err(self.refuse()),
        }
    }
}

impl<'a, R: Files + Input + Print + Eprint + RandomSource + Net + Clock + Sync> Host
    for RealHost<'a, R>
where
    R::File: Send,
{
    type Input = SourceOf<'a, R>;

    type Output = SinkOf<'a, R>;

    type Random = RealEntropy<'a, R>;

    type Wire = Metered<
        Recorded<Until<UdpLink, ProcessSign<'a, R>>, RecordFile<'a, R>, ProcessClock<'a, R>>,
        ProcessClock<'a, R>,
        Lines<LineOutput<R::File>>,
    >;

    type Time = ProcessClock<'a, R>;

    ghost tells = { false };

    ghost shelf = { λ _. nowhere };

    ghost faults = { λ host. host.faults };

    fn source(&mut self, name: &str) -> Result<Self::Input, HostBad>
        ensures cause { HasHostCause self.old.faults self.new.faults result }
        ensures only { FailsAlone result }
        ensures named { IfOk result (λ source. IsInputNamed name.now source.source) }
        ensures datagrams { IfOk result (λ source. in_datagrams source.source ≡ is_network name.now) }
        ensures faulty { (bad : AddressBad) → address_of name.now ≡ Err bad → result ≡ Err HostBad.Failed }
        // What it reads is taken down. Standard input and the network are no file that could be told from others.
        ensures known { IfOk result (λ source. self.new.read ≡ file_read source.source) }
        ensures stays { OnErr result (self.new.read ≡ self.old.read) }
    {
        match address_of(name) {
            Ok(None) => self.named_source(name),
            Ok(Some(address)) => self.network_source(name, &address),
            Err(bad) => Err(self.refuse_name(name, Reason::Address(bad))),
        }
    }

    fn sink(&mut self, name: &str) -> Result<Self::Output, HostBad>
        ensures fresh { IfOk result (λ _. IsEmpty silent) }
        ensures cause { HasHostCause self.old.faults self.new.faults result }
        ensures only { FailsAlone result }
        ensures named { IfOk result (λ sink. IsOutputNamed name.now sink) }
        ensures faulty { (bad : AddressBad) → address_of name.now ≡ Err bad → result ≡ Err HostBad.Failed }
        ensures stays { self.new.read ≡ self.old.read }
    {
        match address_of(name) {
            Ok(None) => self.named_sink(name),
            Ok(Some(address)) => self.network_sink(name, &address),
            Err(bad) => Err(self.refuse_name(name, Reason::Address(bad))),
        }
    }

    fn entropy(&mut self) -> Result<Self::Random, HostBad>
        ensures cause { HasHostCause self.old.faults self.new.faults result }
        ensures only { FailsAlone result }
        ensures stays { self.new.read ≡ self.old.read }
    {
        Ok(RealEntropy::new(self.rt))
    }

    fn link(&mut self, spec: &LinkSpec, role: Role, profile: Profile) -> Result<Self::Wire, HostBad>
        ensures fresh { IfOk result (λ _. IsUnwritten untold) }
        ensures cause { HasHostCause self.old.faults self.new.faults result }
        ensures only { FailsAlone result }
        ensures peers { IfOk result (λ link. KnowsStated (knows_in_link (link_behind link.link.link)) role profile) }
        // It is opened as asked: at this address, in this role and profile.
        ensures stated { IfOk result (λ link. (c : ChannelValue)
            → knows_in_link (link_behind link.link.link) c ≡ stated_in role profile c) }
        ensures at { IfOk result (λ link. IsOpenedAt role profile spec.now (link_behind link.link.link)) }
        // No sign ends a link that a sender sends on.
        ensures lasts { is_senders role ≡ true → IfOk result (λ link. sign_of link.link.link ≡ Some (λ k. false)) }
        // Any other ends where the system asks the program to end.
        ensures ends { is_senders role ≡ false → IfOk result (λ link. sign_of link.link.link ≡ None) }
        ensures stays { self.new.read ≡ self.old.read }
    {
        match UdpLink::open(self.rt, spec, role, profile) {
            Ok(link) => {
                if receives(role) {
                    self.tell_room(&link);
                }
                let link = Until::over(link, sign_for(self.rt, role));
                let recording = self.recording(role)?;
                Ok(self.metered(Recorded { link, recording }))
            }
            Err(_) => {
                self.trouble = why_no_link(self.rt, spec, role, profile);
                Err(self.refuse())
            }
        }
    }

    fn record(&mut self, name: &str) -> Result<(), HostBad>
        ensures cause { HasHostCause self.old.faults self.new.faults result }
        ensures only { FailsAlone result }
        ensures stays { self.new.read ≡ self.old.read }
    {
        if is_named(self.rt, name, self.read) {
            return Err(self.refuse_name(name, Reason::IsSource));
        }
        match RecordFile::begin(self.rt, name) {
            Ok(file) => {
                self.record = Some(file);
                self.recorded = 0;
                Ok(())
            }
            Err(error) => Err(self.refuse_name(name, Reason::System(error))),
        }
    }

    fn statistics(&mut self, every: u64, name: Option<&str>) -> Result<(), HostBad>
        ensures cause { HasHostCause self.old.faults self.new.faults result }
        ensures only { FailsAlone result }
        ensures stays { self.new.read ≡ self.old.read }
    {
        let Some(name) = name else {
            self.statistics = Some(Statistics { every, file: None });
            return Ok(());
        };
        if is_named(self.rt, name, self.read) {
            return Err(self.refuse_name(name, Reason::IsSource));
        }
        match fs::create(self.rt, name) {
            Ok(file) => {
                self.statistics = Some(Statistics {
                    every,
                    file: Some(file),
                });
                Ok(())
            }
            Err(error) => Err(self.refuse_name(name, Reason::System(error))),
        }
    }

    fn clock(&mut self) -> Result<Self::Time, HostBad>
        ensures cause { HasHostCause self.old.faults self.new.faults result }
        ensures only { FailsAlone result }
        ensures stays { self.new.read ≡ self.old.read }
    {
        self.started_clock()
    }

    fn back_source(&mut self, _name: &str, mut object: Self::Input)
        ensures cause { self.new.faults ≡ self.old.faults }
        ensures known { self.new.read ≡ None }
    {
        object.end();
        self.read = None;
        self.line = None;
    }

    fn back_sink(&mut self, _name: &str, _object: Self::Output) {}

    fn back_entropy(&mut self, _place: u8, _object: Self::Random) {}

    fn back_link(&mut self, _place: u8, _object: Self::Wire) {}

    fn back_clock(&mut self, _place: u8, _object: Self::Time) {}

    /// Writes them as a line to the error output.
    fn report(&mut self, counts: &[Count]) {
        // A line that can't be written changes no answer.
        let _ = self.rt.eprintln(ReportText(counts));
    }
}

/// Why a link couldn't be opened: each of its ports is bound once more, and the first that can't be says why.
fn why_no_link<R: Net>(rt: &R, spec: &LinkSpec, role: Role, profile: Profile) -> Option<Trouble> {
    let control = match profile {
        Profile::Simple => spec.control_port().unwrap_or(spec.port),
        Profile::Main => spec.port,
    };
    for port in [spec.port, control] {
        let address = own_address(role, spec, port);
        if let Err(error) = UdpSocket::bind(rt, address) {
            return Some(Trouble::new(Thing::Address(address), Reason::System(error)));
        }
    }
    None
}

/// Whether a stream comes in on a link in this role.
fn receives(role: Role) -> bool {
    matches!(role, Role::Receives | Role::ReceivesCalling)
}

/// What a link in this role ends by. A link that a sender sends on ends by no sign: it answers requests until the sender's time is
/// over.
fn sign_for<R>(rt: &R, role: Role) -> ProcessSign<'_, R>
    ensures lasts { is_senders role ≡ true → answers_of result.looks ≡ Some (λ k. false) }
    ensures ends { is_senders role ≡ false → answers_of result.looks ≡ None }
{
    match role {
        Role::Receives | Role::ReceivesCalling | Role::Forwards => ProcessSign::new(rt),
        Role::Sends | Role::SendsListening => ProcessSign::never(rt),
    }
}
