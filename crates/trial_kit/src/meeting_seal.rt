//! A seal at which replies meet: it shows which are tagged at once.
ghost use Rattle.seal_tags.specs.Seals.{group_tag, is_group_tag};

use crate::meeting::Meeting;
use kad_base::Id;
use seal_tags::{GroupSeal, Seal, SealCheck};

/// Makes the tags of a group, and lets the first tags of so many replies wait for each other, for so many looks at most: those
/// whose transaction ids end with the letters from `a` on.
#[derive(Drop)]
pub struct MeetingSeal {
    seal: GroupSeal,
    meeting: Meeting,
}

impl MeetingSeal {
    /// The seal of the group with this key, at which so many replies meet, at most 26.
    pub fn new(key: [u8; 32], count: u8) -> MeetingSeal {
        MeetingSeal {
            seal: GroupSeal::new(key),
            meeting: Meeting::new(0, count),
        }
    }

    /// Whether the tag of each of these replies saw those of all others.
    pub fn is_met(&self) -> bool {
        self.meeting.is_met()
    }
}

/// The place of the reply among those that meet, from 0: by the last letter of its transaction id, which stands in front of
/// the last seven bytes of its written form, `1:y1:re`.
fn place(body: &[u8]) -> Option<u8> {
    let letter = body.get(body.len().wrapping_sub(8))?;
    letter.checked_sub(b'a')
}

impl Seal for MeetingSeal {
    ghost tag_of = { λ s id body. group_tag s.seal id body };

    fn tag(&self, id: &Id, body: &[u8], out: &mut [u8; 64]) -> usize {
        if let Some(place) = place(body) {
            self.meeting.meet(place);
        }
        self.seal.tag(id, body, out)
    }
}

impl SealCheck for MeetingSeal {
    ghost accepted = { λ s id body tag. is_group_tag s.seal id body tag };

    fn accepts(&self, id: &Id, body: &[u8], tag: &[u8]) -> bool {
        self.seal.accepts(id, body, tag)
    }
}
