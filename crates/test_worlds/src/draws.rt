//! Worked draws of a made script.
use made_script::{Draws, Due, Held, PAYLOAD_LEN, Script, Way, generator, payload_of};
use rand_core::utils::NextWord;
use std::alloc::Global;
use std::test::Fail;

/// The first five octets and the last one of a transport packet.
fn ends_of(payload: &[u8; PAYLOAD_LEN], packet: usize) -> Option<[u8; 6]> {
    let packet = payload.get(188_usize.checked_mul(packet)?..)?;
    let mut ends = [0; 6];
    for place in 0..5 {
        ends[place] = *packet.get(place)?;
    }
    ends[5] = *packet.get(187)?;
    Some(ends)
}

#[test]
fn the_first_payload_has_its_octets(rt: HostRuntime) -> Result<(), Fail> {
    let rows = [
        (0, [0x47, 0x1F, 0xFF, 0x10, 0xFF, 0xFF]),
        (1, [0x47, 0x01, 0x00, 0x10, 0x05, 0xBC]),
        (2, [0x47, 0x01, 0x00, 0x10, 0x06, 0xBD]),
        (5, [0x47, 0x1F, 0xFF, 0x10, 0xFF, 0xFF]),
        (6, [0x47, 0x01, 0x00, 0x10, 0x0A, 0xC1]),
    ];
    let payload = payload_of(0);
    for (packet, ends) in rows {
        assert_eq!(rt; ends_of(&payload, packet), Some(ends), "packet {packet}");
    }
    Ok(())
}

#[test]
fn words_are_those_of_the_cipher(rt: HostRuntime) -> Result<(), Fail> {
    // The first words of ChaCha with eight rounds under a key of zeros (the test vectors of the eSTREAM cipher).
    let mut words = generator(0, 0);
    for word in [0x2FEF_003E_u32, 0xD640_5F89, 0xE8B8_5B7F, 0xA1A5_091F] {
        assert_eq!(rt; words.next_word(), word);
    }
    Ok(())
}

/// A datagram that is carried.
fn due(way: Way, link: u8, slot: u32) -> Due {
    Due {
        way,
        link,
        place: 0,
        slot,
    }
}

#[test]
fn datagrams_draw_by_way_link_and_place(rt: HostRuntime) -> Result<(), Fail> {
    let script = Script {
        number: 0,
        count: 1,
        links: 2,
        loss: 200,
    };
    let held = Held {
        forward: [1, 2, 0, 0],
        backward: [0, 1, 0, 0],
    };
    let mut draws = Draws::with(rt.alloc(), script);
    assert_eq!(rt; draws.script().loss, 200);
    // By the four words above: two slots later, four slots later, lost, two slots later.
    let first = due(Way::Forward, 0, 2);
    let second = due(Way::Forward, 1, 4);
    let back = due(Way::Backward, 1, 2);
    draws.draw(&held)?;
    assert_eq!(rt; draws.dues(), [first, second, back].as_slice());
    draws.draw(&held)?;
    assert_eq!(rt; draws.dues(), [first, second, back].as_slice());
    draws.draw(&held)?;
    assert_eq!(rt; draws.slot(), 3);
    assert_eq!(rt; draws.dues(), [second].as_slice());
    Ok(())
}
