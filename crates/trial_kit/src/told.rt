//! What a scripted link tells.
use fake_net::ScriptLink;
use kad_base::Event;
use std::alloc::Global;
use std::test::Fail;

/// The datagrams that were sent, as the transcript has them.
pub fn sent(alloc: Global, link: &ScriptLink) -> Result<Vec<Vec<u8>>, Fail> {
    let Some(events) = link.events() else {
        return Err(Fail::new("not told"));
    };
    let mut sent = Vec::new(alloc);
    for event in events {
        if let Event::Sent { bytes, .. } = event {
            sent.push(bytes.as_slice().to_vec(alloc)?)?;
        }
    }
    Ok(sent)
}

/// Whether the link tells these events.
pub fn tells(link: &ScriptLink, wanted: &[Event]) -> bool {
    match link.events() {
        Some(events) => events == wanted,
        None => false,
    }
}
