//! What a datagram is, as a JSON object.
ghost use Rattle.std.specs.Prelude.{◌≡◌, length, IfOk};
ghost use Rattle.serde_json.specs.View.{view};
ghost use Rattle.rist_wire.specs.Media.{content_of};
ghost use Rattle.rist_show.specs.Lines.{channel_name, bits_of, ask_data, asks_data, types_data, media_data, control_data, keepalive_data, refusal_data, data_by};
ghost use Rattle.rist_show.specs.Origins.{origin_in};

use capture_file::Head;
use keepalive_msg::Keepalive;
use link_channels::{Channel, MAX_PAYLOAD};
use rist_nack::{Ask, asks};
use rist_wire::{Item, Media, WireBad};
use rtcp_compound::Compound;
use seq_unwrap::Width;
use serde_json::{Value, json};
use std::alloc::{AllocError, Global};

fn channel_name(channel: Channel) -> &'static str
    ensures value { result.now ≡ channel_name channel }
{
    match channel {
        Channel::Media => "media",
        Channel::Control => "control",
        Channel::Tunnel => "tunnel",
    }
}

fn bits_of(width: Width) -> u8
    ensures value { result ≡ bits_of width }
{
    match width {
        Width::W16 => 16,
        Width::W32 => 32,
    }
}

// The length of a payload with its null packets in their places. The block is scratch.
fn content_length(media: &Media<'_>, block: &mut [u8; MAX_PAYLOAD]) -> usize
    ensures value { result ≡ length (content_of media.now) }
{
    if media.is_whole() {
        return media.payload().len();
    }
    media.content(block)
}

fn media_value(
    alloc: Global,
    head: &Head,
    media: &Media<'_>,
    block: &mut [u8; MAX_PAYLOAD],
) -> Result<Value, AllocError>
    ensures value { IfOk result (λ v. view v ≡ media_data (origin_in head.now) media.now) }
{
    let flow = hex::encode(alloc, media.flow.to_be_bytes())?;
    let length = content_length(media, block);
    json!(in alloc; {
        "again": media.again,
        "at": head.us,
        "channel": channel_name(head.channel),
        "flow": flow,
        "item": "media",
        "length": length,
        "link": head.link,
        "number": media.word,
        "stamp": media.stamp,
        "width": bits_of(media.width)
    })
}

fn ask_value(alloc: Global, ask: &Ask) -> Result<Value, AllocError>
    ensures value { IfOk result (λ v. view v ≡ ask_data ask.now) }
{
    json!(in alloc; [ask.first, ask.more])
}

fn asks_value(alloc: Global, compound: &Compound<'_>) -> Result<Value, AllocError>
    ensures value { IfOk result (λ v. view v ≡ asks_data compound.now) }
{
    let mut values = Vec::new(alloc);
    for ask in asks(compound, None) {
        values.push(ask_value(alloc, &ask)?)?;
    }
    Ok(Value::Array(values))
}

fn types_value(alloc: Global, compound: &Compound<'_>) -> Result<Value, AllocError>
    ensures value { IfOk result (λ v. view v ≡ types_data compound.now) }
{
    let mut values = Vec::new(alloc);
    for packet in compound.packets() {
        values.push(Value::from(packet.kind()))?;
    }
    Ok(Value::Array(values))
}

fn control_value(alloc: Global, head: &Head, compound: &Compound<'_>) -> Result<Value, AllocError>
    ensures value { IfOk result (λ v. view v ≡ control_data (origin_in head.now) compound.now) }
{
    let asks = asks_value(alloc, compound)?;
    let types = types_value(alloc, compound)?;
    json!(in alloc; {
        "asks": asks,
        "at": head.us,
        "channel": channel_name(head.channel),
        "item": "control",
        "link": head.link,
        "packets": types
    })
}

fn keepalive_value(alloc: Global, head: &Head, keepalive: &Keepalive) -> Result<Value, AllocError>
    ensures value { IfOk result (λ v. view v ≡ keepalive_data (origin_in head.now) keepalive.now) }
{
    let mac = hex::encode(alloc, keepalive.mac)?;
    json!(in alloc; {
        "at": head.us,
        "capabilities": keepalive.capabilities,
        "channel": channel_name(head.channel),
        "item": "keepalive",
        "link": head.link,
        "mac": mac,
        "text": keepalive.text
    })
}

fn refusal_value(alloc: Global, head: &Head, bad: &WireBad) -> Result<Value, AllocError>
    ensures value { IfOk result (λ v. view v ≡ refusal_data (origin_in head.now) bad.now) }
{
    let why = format!(in alloc; "{bad}")?;
    json!(in alloc; {
        "at": head.us,
        "channel": channel_name(head.channel),
        "item": "refused",
        "link": head.link,
        "place": bad.place(),
        "why": why
    })
}

/// The object of a record with this head and this item.
pub(crate) fn item_value(
    alloc: Global,
    head: &Head,
    item: &Result<Item<'_>, WireBad>,
    block: &mut [u8; MAX_PAYLOAD],
) -> Result<Value, AllocError>
    ensures value { IfOk result (λ v. view v ≡ data_by (origin_in head.now) item.now) }
{
    match item {
        Ok(Item::Media(media)) => media_value(alloc, head, media, block),
        Ok(Item::Control(compound)) => control_value(alloc, head, compound),
        Ok(Item::Keepalive(keepalive)) => keepalive_value(alloc, head, keepalive),
        Err(bad) => refusal_value(alloc, head, bad),
    }
}
