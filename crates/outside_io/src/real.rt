//! Files and standard streams. What they give and take is not told: the trusted edge of the system.
ghost use Rattle.std.specs.Prelude.{◌≡◌, ◌≤◌, ◌<◌, ◌↔◌, length, take, false, None, codes, IfOk, IsOkAnd, OnOk, OnErr, IsSome, IsTrue};
ghost use Rattle.outside_io.specs.Real.{silent, source_faults, sink_faults, ReadsBehind, WritesBehind, WritesFront, WritesFrontBehind, IsSourceNamed, IsSinkNamed, IsNameOf, file_of};
ghost use Rattle.std.specs.Fs.{file_type, IsFile};
ghost use Rattle.std.specs.Io.{ReadsAtMost};
ghost use Rattle.std.specs.Io.KnownBytes.{ReadConsumes, Appends as WriterAppends};
ghost use Rattle.outside_io.specs.Causes.{HasCause};
ghost use Rattle.outside_io.specs.Told.{Appends, AppendsPart, Takes, IsEmpty};

use crate::file_identity::FileIdentity;
use crate::{Failed, Sink, Source};
use std::fs::{self, Files, Metadata, OpenFile};
use std::io::{self, Input, Print, Printer, Read, Write};

/// Any reader, with a count of its faults.
#[derive(Drop)]
pub struct Reading<R> {
    inner: R,
    faults: u64,
}

impl<R: Read> Source for Reading<R> {
    ghost remaining = { λ _. silent };

    ghost faults = { λ source. source.faults };

    fn read(&mut self, buf: &mut [u8]) -> Result<usize, Failed>
        ensures within { ReadsAtMost result buf.new }
        ensures ok { IfOk result (λ count. Takes silent silent (take count buf.new)) }
        ensures end { IfOk result (λ count. count ≡ 0 → 0 < length buf.new → IsEmpty silent) }
        ensures err { OnErr result (silent ≡ silent) }
        ensures cause { HasCause self.old.faults self.new.faults result }
        // What is given was read, where the reader tells.
        ensures whole { ReadConsumes (R.remaining self.old.inner) (R.remaining self.new.inner) result buf.new }
    {
        match self.inner.read(buf) {
            Ok(count) => Ok(count),
            Err(_) => {
                self.faults = self.faults.saturating_add(1);
                Err(Failed)
            }
        }
    }
}

/// Any writer, with a count of its faults.
#[derive(Drop)]
pub struct Writing<W> {
    inner: W,
    faults: u64,
}

/// Writes the piece, all of it where it can, and says how much.
fn write_through<W: Write>(writer: &mut W, piece: &[u8]) -> usize
    ensures within { result ≤ length piece.now }
    ensures value { WriterAppends (W.contents writer.old) (W.contents writer.new) (take result piece.now) }
{
    let mut done = 0;
    while done < piece.len() {
        match writer.write(&piece[done..]) {
            Ok(0) => return done,
            Ok(count) => done += count,
            Err(_) => return done,
        }
    }
    done
}

impl<W: Write> Sink for Writing<W> {
    ghost contents = { λ _. silent };

    ghost faults = { λ sink. sink.faults };

    fn put(&mut self, piece: &[u8]) -> Result<(), Failed>
        ensures ok { OnOk result (Appends silent silent piece.now) }
        ensures err { OnErr result (AppendsPart silent silent piece.now) }
        ensures cause { HasCause self.old.faults self.new.faults result }
        // A piece that is taken was written whole, where the writer tells, and else a front part of it.
        ensures whole { OnOk result (WriterAppends (W.contents self.old.inner) (W.contents self.new.inner) piece.now) }
        ensures front { OnErr result (WritesFront (W.contents self.old.inner) (W.contents self.new.inner) piece.now) }
    {
        if write_through(&mut self.inner, piece) == piece.len() {
            return Ok(());
        }
        self.faults = self.faults.saturating_add(1);
        Err(Failed)
    }
}

/// A file, with its identity where it is a regular one, or standard input.
#[derive(Drop)]
pub enum RealSource<F, I> {
    File(Reading<F>, Option<FileIdentity>),
    Stream(Reading<I>),
}

impl<F, I> RealSource<F, I> {
    /// The regular file that it reads, if it is one.
    pub fn file(&self) -> Option<FileIdentity>
        ensures value { result ≡ file_of self.now }
    {
        match self {
            RealSource::File(_, file) => *file,
            RealSource::Stream(_) => None,
        }
    }
}

impl<F: Read, I: Read> Source for RealSource<F, I> {
    ghost remaining = { λ _. silent };

    ghost faults = { source_faults };

    fn read(&mut self, buf: &mut [u8]) -> Result<usize, Failed>
        ensures within { ReadsAtMost result buf.new }
        ensures ok { IfOk result (λ count. Takes silent silent (take count buf.new)) }
        ensures end { IfOk result (λ count. count ≡ 0 → 0 < length buf.new → IsEmpty silent) }
        ensures err { OnErr result (silent ≡ silent) }
        ensures cause { HasCause (source_faults self.old) (source_faults self.new) result }
        ensures whole { ReadsBehind F.remaining I.remaining self.old self.new result buf.new }
    {
        match self {
            RealSource::File(source, _) => source.read(buf),
            RealSource::Stream(source) => source.read(buf),
        }
    }
}

/// A file or standard output.
#[derive(Drop)]
pub enum RealSink<F, O> {
    File(Writing<F>),
    Stream(Writing<O>),
}

impl<F: Write, O: Write> Sink for RealSink<F, O> {
    ghost contents = { λ _. silent };

    ghost faults = { sink_faults };

    fn put(&mut self, piece: &[u8]) -> Result<(), Failed>
        ensures ok { OnOk result (Appends silent silent piece.now) }
        ensures err { OnErr result (AppendsPart silent silent piece.now) }
        ensures cause { HasCause (sink_faults self.old) (sink_faults self.new) result }
        ensures whole { OnOk result (WritesBehind F.contents O.contents self.old self.new piece.now) }
        ensures front { OnErr result (WritesFrontBehind F.contents O.contents self.old self.new piece.now) }
    {
        match self {
            RealSink::File(sink) => sink.put(piece),
            RealSink::Stream(sink) => sink.put(piece),
        }
    }
}

/// A source: standard input under the name `-`, and else the file of this name.
pub fn open_source<R: Files + Input>(
    rt: &R,
    name: &str,
) -> io::Result<RealSource<R::File, R::Reader>>
    ensures named { IfOk result (λ source. IsSourceNamed name.now source) }
    ensures fresh { IfOk result (λ source. source_faults source ≡ 0) }
{
    if name == "-" {
        return Ok(RealSource::Stream(Reading {
            inner: rt.reader(),
            faults: 0,
        }));
    }
    let inner = fs::open(rt, name)?;
    let file = FileIdentity::of(&inner.metadata()?);
    Ok(RealSource::File(Reading { inner, faults: 0 }, file))
}

/// Whether a name is that of this regular file. The name `-` is no file's.
pub fn is_named<R: Files>(rt: &R, name: &str, file: Option<FileIdentity>) -> bool
    ensures none { file ≡ None → result ≡ false }
    ensures stream { name.now ≡ codes "-" → result ≡ false }
{
    is_name_of(name, identity_of(fs::metadata(rt, name)), file)
}

/// The identity of what was found under a name, if that is a regular file.
fn identity_of(found: io::Result<Metadata>) -> Option<FileIdentity>
    ensures file { IsSome result ↔ IsOkAnd found (λ metadata. IsFile (file_type metadata)) }
{
    match found {
        Ok(metadata) => FileIdentity::of(&metadata),
        Err(_) => None,
    }
}

/// Whether the regular file that was found under a name is this one.
fn is_name_of(name: &str, found: Option<FileIdentity>, file: Option<FileIdentity>) -> bool
    ensures value { IsTrue result ↔ IsNameOf name.now found file }
{
    name != "-" && found.is_some() && found == file
}

/// Standard output under the name `-`, and else a new file of this name.
pub fn create_sink<'a, R: Files + Print>(
    rt: &'a R,
    name: &str,
) -> io::Result<RealSink<R::File, Printer<'a, R>>>
    ensures named { IfOk result (λ sink. IsSinkNamed name.now sink) }
    ensures fresh { IfOk result (λ sink. sink_faults sink ≡ 0) }
{
    if name == "-" {
        return Ok(RealSink::Stream(Writing {
            inner: io::writer(rt),
            faults: 0,
        }));
    }
    match fs::create(rt, name) {
        Ok(inner) => Ok(RealSink::File(Writing { inner, faults: 0 })),
        Err(error) => Err(error),
    }
}
