//! The tokens of get_peers and announce_peer (BEP 5), and of get and put (BEP 44).
ghost use Rattle.std.specs.Prelude.{◌≡◌, ◌↔◌, ◌-◌, ◌/◌, ◌^◌, ◌<◌, ◌++◌, IsTrue, take};
ghost use Rattle.kad_base.specs.Puzzles.{hash};
ghost use Rattle.node_tokens.specs.Tokens.{TokensState, IsAccepted, epoch_at, secret_of, token_of, tokens_by, point_of, point_at};

use id_puzzles::Words;
use kad_base::Id;
use sha1::Sha1;
use std::marker::Model;

/// How long the secret of an epoch makes tokens, in milliseconds: five minutes (BEP 5). They are taken for as long again.
const EPOCH: u64 = 300_000;

/// The place of the first word that secrets are drawn from: 2 to the power of 40.
const FIRST_PLACE: u64 = 1_099_511_627_776;

/// What makes and knows tokens. A token is bound to an IPv4 address and to an epoch of five minutes, and nothing is kept
/// of it: it is made again to be known. The secrets of one epoch and of the one before it are kept. No call takes memory.
/// Making a token costs one hash, knowing one at most two; in an epoch whose secret isn't kept each costs five drawn words
/// more.
#[derive(Drop)]
pub struct Tokens {
    random: [u8; 32],
    began: u64,
    /// The epoch whose secrets are kept.
    epoch: u64,
    secret: [u8; 20],
    /// The secret of the epoch before, if there is one.
    before: [u8; 20],
    /// Whether lists are drawn.
    draws: bool,
}

impl Model for Tokens {
    ghost use Rattle.std.specs.Prelude.{◌<◌, ◌^◌};
    ghost use Rattle.node_tokens.specs.Tokens.{TokensState, AreSecrets};

    ghost Value = { TokensState };

    ghost view = { λ t. record { seed = t.random; began = t.began; draws = t.draws } };

    ghost invariant = { λ t. AreSecrets t.random t.epoch t.secret t.before };
}

impl Tokens {
    /// Tokens with the secrets of these random bytes, whose epochs count from the moment `began`, in milliseconds. They draw no
    /// list.
    pub fn new(random: &[u8; 32], began: u64) -> Tokens
        ensures { result ≡ tokens_by random.now began 0 }
    {
        Tokens::limited(random, began, 0)
    }

    /// The same of a node that holds at most so many of one host (`kad_base::Host`), which draws lists; 0 is no limit.
    pub fn limited(random: &[u8; 32], began: u64, per_address: usize) -> Tokens
        ensures { result ≡ tokens_by random.now began per_address }
    {
        let first = secret(random, 0);
        Tokens {
            random: *random,
            began,
            epoch: 0,
            secret: first,
            before: first,
            draws: per_address > 0,
        }
    }

    /// The same tokens, for another thread.
    pub fn another(&self) -> Tokens
        ensures { result ≡ self.now }
    {
        Tokens {
            random: self.random,
            began: self.began,
            epoch: self.epoch,
            secret: self.secret,
            before: self.before,
            draws: self.draws,
        }
    }

    /// Keeps the secrets of the epoch of the moment and of the one before it. It makes them where it isn't the epoch whose
    /// secrets are kept.
    pub fn renew(&mut self, at: u64)
        ensures { self.new ≡ self.old }
    {
        let epoch = epoch(self.began, at);
        if epoch == self.epoch {
            return;
        }
        self.secret = secret(&self.random, epoch);
        self.before = secret(&self.random, epoch.saturating_sub(1));
        self.epoch = epoch;
    }

    /// The secret of an epoch, kept or made.
    fn secret_in(&self, epoch: u64) -> [u8; 20]
        requires { epoch < 2 ^ 46 }
        ensures { result ≡ secret_of self.now.seed epoch }
    {
        if epoch == self.epoch {
            return self.secret;
        }
        if epoch == self.epoch.saturating_sub(1) {
            return self.before;
        }
        secret(&self.random, epoch)
    }

    /// The token of the address in the epoch of the moment.
    pub fn make(&self, ip: [u8; 4], at: u64) -> [u8; 8]
        ensures { result ≡ token_of self.now.seed (epoch_at self.now at) ip }
    {
        self.token_in(epoch(self.began, at), &ip)
    }

    /// The token of the address under the secret of an epoch.
    #[tactic(auto, unfolding(crate::specs::Tokens::token_of))]
    fn token_in(&self, epoch: u64, ip: &[u8; 4]) -> [u8; 8]
        requires { epoch < 2 ^ 46 }
        ensures { result ≡ token_of self.now.seed epoch ip.now }
    {
        front(&digest(ip, &self.secret_in(epoch)))
    }

    /// The number by which the list of a key is drawn for whoever asks from the address at the moment, its highest byte first.
    /// Another asker, another key and the next epoch have another, and who doesn't know the secret can't tell it. Costs a hash;
    /// where no list is drawn it is zero, and costs nothing.
    pub fn point(&self, ip: [u8; 4], at: u64, key: &Id) -> [u8; 4]
        ensures { result ≡ point_at self.now ip at key.now.0 }
    {
        if !self.draws {
            return [0; 4];
        }
        self.point_in(epoch(self.began, at), &ip, key)
    }

    /// The same, under the secret of an epoch.
    #[tactic(auto, unfolding(crate::specs::Tokens::point_of))]
    fn point_in(&self, epoch: u64, ip: &[u8; 4], key: &Id) -> [u8; 4]
        requires { epoch < 2 ^ 46 }
        ensures { result ≡ point_of self.now.seed epoch ip.now key.now.0 }
    {
        first_four(&digest_with(ip, &key.0, &self.secret_in(epoch)))
    }

    /// Whether this is the token of the address under the secret of an epoch.
    fn is_token_in(&self, epoch: u64, ip: &[u8; 4], token: &[u8]) -> bool
        requires { epoch < 2 ^ 46 }
        ensures { IsTrue result ↔ (token.now ≡ token_of self.now.seed epoch ip.now) }
    {
        is_same(token, &self.token_in(epoch, ip))
    }

    /// Whether this is the token of the address in the epoch of the moment or in the one before it.
    pub fn accepts(&self, ip: [u8; 4], at: u64, token: &[u8]) -> bool
        ensures { IsTrue result ↔ IsAccepted self.now ip at token.now }
    {
        let epoch = epoch(self.began, at);
        if self.is_token_in(epoch, &ip, token) {
            return true;
        }
        if epoch == 0 {
            return false;
        }
        self.is_token_in(epoch - 1, &ip, token)
    }
}

/// The epoch of a moment. It stays so low that each place that a secret is drawn from is below 2 to the power of 60.
fn epoch(began: u64, at: u64) -> u64
    ensures epoch { result ≡ (at - began) / 300000 }
    ensures low { result < 2 ^ 46 }
{
    at.saturating_sub(began) / EPOCH
}

/// The secret of an epoch.
#[tactic(auto, unfolding(crate::specs::Tokens::secret_of))]
fn secret(random: &[u8; 32], epoch: u64) -> [u8; 20]
    requires { epoch < 2 ^ 46 }
    ensures { result ≡ secret_of random.now epoch }
{
    let mut words = Words::new(random, FIRST_PLACE + 5 * epoch);
    let mut bytes = [0; 20];
    words.fill(&mut bytes);
    bytes
}

/// The hash of the address followed by a secret: SHA-1 (FIPS 180-4).
#[tactic(auto, unfolding(kad_base::specs::Puzzles::hash))]
fn digest(ip: &[u8; 4], secret: &[u8; 20]) -> [u8; 20]
    ensures { result ≡ hash (ip.now ++ secret.now) }
{
    let mut hasher = Sha1::new();
    hasher.update(ip);
    hasher.update(secret);
    hasher.finalize()
}

/// The hash of an asker's address followed by a key and the secret of an epoch: SHA-1 (FIPS 180-4).
#[tactic(auto, unfolding(kad_base::specs::Puzzles::hash))]
fn digest_with(asker: &[u8; 4], key: &[u8; 20], of_epoch: &[u8; 20]) -> [u8; 20]
    ensures { result ≡ hash ((asker.now ++ key.now) ++ of_epoch.now) }
{
    let mut hasher = Sha1::new();
    hasher.update(asker);
    hasher.update(key);
    hasher.update(of_epoch);
    hasher.finalize()
}

/// The first four bytes.
fn first_four(digest: &[u8; 20]) -> [u8; 4]
    ensures { result ≡ take 4 digest.now }
{
    let mut bytes = [0; 4];
    bytes.copy_from_slice(&digest[..4]);
    bytes
}

/// The first eight bytes.
fn front(digest: &[u8; 20]) -> [u8; 8]
    ensures { result ≡ take 8 digest.now }
{
    let mut bytes = [0; 8];
    bytes.copy_from_slice(&digest[..8]);
    bytes
}

fn is_same(a: &[u8], b: &[u8]) -> bool
    ensures { IsTrue result ↔ (a.now ≡ b.now) }
{
    a == b
}
