//! The words of the command line: pairs of an option and its value, in any order.
use kad_base::limits::{DEFAULT_ALPHA, DEFAULT_K, DEFAULT_PATHS, MAX_ALPHA, MAX_K, MAX_PATHS};
use kad_text::read::{read_hex, read_number};

/// The most nodes of a network.
const MAX_NODES: u32 = 20_000;

/// The most lookups of a study.
const MAX_LOOKUPS: u32 = 1_000_000;

/// What a hostile node does when it is asked.
#[derive(Clone, Copy, Debug, PartialEq, Eq)]
pub enum Attack {
    /// It answers nothing.
    Silent,
    /// It answers in its own name with the 16 hostile nodes closest to the target.
    Misroute,
    /// It answers in its own name with 16 invented contacts next to the target, where nobody is.
    Dead,
}

/// What is studied: so many lookups for the `k` closest nodes, on `paths` disjoint paths with `alpha` queries open on
/// each, in a network of `nodes` nodes of which `share` in a hundred are hostile.
#[derive(Clone, Copy, Debug, PartialEq, Eq)]
pub struct StudySetting {
    pub seed: [u8; 32],
    pub nodes: u32,
    pub share: u32,
    pub attack: Attack,
    pub k: u8,
    pub paths: u8,
    pub alpha: u8,
    pub lookups: u32,
}

impl StudySetting {
    /// What holds where no word says otherwise.
    fn usual() -> StudySetting {
        StudySetting {
            seed: [0; 32],
            nodes: 2_000,
            share: 0,
            attack: Attack::Misroute,
            k: DEFAULT_K,
            paths: DEFAULT_PATHS,
            alpha: DEFAULT_ALPHA,
            lookups: 1_000,
        }
    }

    /// Sets what an option names; `None` if there is no such option, or the value isn't one of its values.
    fn set(&mut self, option: &str, value: &str) -> Option<()> {
        match option {
            "--seed" => self.seed = read_hex(value)?,
            "--nodes" => self.nodes = read_number(value, 1, MAX_NODES)?,
            "--share" => self.share = read_number(value, 0, 100)?,
            "--attack" => self.attack = read_attack(value)?,
            "--k" => self.k = read_small(value, MAX_K)?,
            "--paths" => self.paths = read_small(value, MAX_PATHS)?,
            "--alpha" => self.alpha = read_small(value, MAX_ALPHA)?,
            "--lookups" => self.lookups = read_number(value, 1, MAX_LOOKUPS)?,
            _ => return None,
        }
        Some(())
    }
}

fn read_attack(text: &str) -> Option<Attack> {
    match text {
        "silent" => Some(Attack::Silent),
        "misroute" => Some(Attack::Misroute),
        "dead" => Some(Attack::Dead),
        _ => None,
    }
}

/// A number from 1 to `most`.
fn read_small(text: &str, most: u8) -> Option<u8> {
    u8::try_from(read_number(text, 1, u32::from(most))?).ok()
}

/// The setting that the words ask for; `None` if they are no pairs of an option and a value of its own.
pub fn read(words: &[String]) -> Option<StudySetting> {
    let mut setting = StudySetting::usual();
    for pair in words.chunks(2) {
        let [option, value] = pair else {
            return None;
        };
        setting.set(option.as_str(), value.as_str())?;
    }
    Some(setting)
}
