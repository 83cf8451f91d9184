//! The values of options, read from what clap found. Each of them fits its option: see `plain`.
ghost use Rattle.std.specs.Prelude.{◌≡◌, IfOk, IsTrue, is_some};
ghost use Rattle.kad_text.specs.Text.{SpellsBytes, SpellsHex, SpellsId};
ghost use Rattle.kad_words.specs.Listed.{entry_of};
ghost use Rattle.kad_words.specs.Table.{c1_option, c2_option, PolicyOf};
ghost use Rattle.kad_words.specs.Taken.{taken_of};
ghost use Rattle.kad_words.specs.Fitting.{Fits, ends_below, has_default, is_below};
ghost use Rattle.kad_words.specs.Values.{ClaimBy, FamilyBy, IsGiven, MayBeGiven, MayNumberBy, NumberBy, SpellsProofWord, YesBy};

use crate::choice::{Choice, Kind, Need, read_claim, read_proof, read_yes};
use crate::options::{C1, C2};
use clap::ArgMatches;
use kad_base::{Bytes, ClaimRule, Family, Id, NoMemory, Policy, Proof};
use kad_text::read::{read_bytes, read_family, read_hex, read_id, read_number};
use std::alloc::Global;

/// The identifier of an option that is required.
pub(crate) fn needed_id(matches: &ArgMatches, choice: &Choice) -> Id
    requires fits { Fits (entry_of choice.now) (taken_of matches.now choice.now.name.now) }
    requires kind { choice.now.kind ≡ Kind.Identifier }
    requires need { choice.now.need ≡ Need.Required }
    ensures { IsGiven SpellsId (taken_of matches.now choice.now.name.now) result }
{
    read_id(matches.get_str(choice.name).unwrap()).unwrap()
}

/// The identifier of an option that may be left out.
pub(crate) fn id(matches: &ArgMatches, choice: &Choice) -> Option<Id>
    requires fits { Fits (entry_of choice.now) (taken_of matches.now choice.now.name.now) }
    requires kind { choice.now.kind ≡ Kind.Identifier }
    ensures { MayBeGiven SpellsId (taken_of matches.now choice.now.name.now) result }
{
    read_id(matches.get_str(choice.name)?)
}

/// The proof of an option that may be left out.
pub(crate) fn proof(matches: &ArgMatches, choice: &Choice) -> Option<Proof>
    requires fits { Fits (entry_of choice.now) (taken_of matches.now choice.now.name.now) }
    requires kind { choice.now.kind ≡ Kind.KeyAndX }
    ensures { MayBeGiven SpellsProofWord (taken_of matches.now choice.now.name.now) result }
{
    read_proof(matches.get_str(choice.name)?)
}

/// The bytes of an option that is required, however many there are.
pub(crate) fn needed_bytes(
    alloc: Global,
    matches: &ArgMatches,
    choice: &Choice,
) -> Result<Bytes, NoMemory>
    requires fits { Fits (entry_of choice.now) (taken_of matches.now choice.now.name.now) }
    requires kind { choice.now.kind ≡ Kind.AnyBytes }
    requires need { choice.now.need ≡ Need.Required }
    ensures { IfOk result (λ bytes.
        IsGiven SpellsBytes (taken_of matches.now choice.now.name.now) bytes) }
{
    read_bytes(alloc, matches.get_str(choice.name).unwrap())
}

/// The 32 bytes of an option that may be left out.
pub(crate) fn seed(matches: &ArgMatches, choice: &Choice) -> Option<[u8; 32]>
    requires fits { Fits (entry_of choice.now) (taken_of matches.now choice.now.name.now) }
    requires kind { choice.now.kind ≡ Kind.Bytes32 }
    ensures { MayBeGiven (SpellsHex 32) (taken_of matches.now choice.now.name.now) result }
{
    read_hex(matches.get_str(choice.name)?)
}

/// The number of an option, or its default.
pub(crate) fn number(matches: &ArgMatches, choice: &Choice) -> u32
    requires fits { Fits (entry_of choice.now) (taken_of matches.now choice.now.name.now) }
    requires kind { IsTrue (has_default choice.now.kind choice.now.need) }
    ensures { NumberBy choice.now.kind choice.now.need
        (taken_of matches.now choice.now.name.now) result }
{
    let Kind::Number { least, most } = choice.kind else {
        unreachable!()
    };
    let Need::OrElse(default) = choice.need else {
        unreachable!()
    };
    match matches.get_str(choice.name) {
        Some(text) => read_number(text, least, most).unwrap(),
        None => default,
    }
}

/// The same of an option whose numbers are below 256.
pub(crate) fn small(matches: &ArgMatches, choice: &Choice) -> u8
    requires fits { Fits (entry_of choice.now) (taken_of matches.now choice.now.name.now) }
    requires kind { IsTrue (is_below 256 choice.now.kind choice.now.need) }
    ensures { NumberBy choice.now.kind choice.now.need
        (taken_of matches.now choice.now.name.now) result }
{
    number(matches, choice) as u8
}

/// The family of an option, or that of IPv4.
pub(crate) fn family(matches: &ArgMatches, choice: &Choice) -> Family
    requires fits { Fits (entry_of choice.now) (taken_of matches.now choice.now.name.now) }
    requires kind { choice.now.kind ≡ Kind.IpVersion }
    requires need { choice.now.need ≡ Need.OrElse 4 }
    ensures { FamilyBy choice.now.kind choice.now.need
        (taken_of matches.now choice.now.name.now) result }
{
    match matches.get_str(choice.name) {
        Some(text) => read_family(text).unwrap(),
        None => Family::Four,
    }
}

/// Whether an option says `yes`.
pub(crate) fn says_yes(matches: &ArgMatches, choice: &Choice) -> bool
    requires fits { Fits (entry_of choice.now) (taken_of matches.now choice.now.name.now) }
    requires kind { choice.now.kind ≡ Kind.YesNo }
    requires need { choice.now.need ≡ Need.OrNo }
    ensures { YesBy choice.now.kind choice.now.need
        (taken_of matches.now choice.now.name.now) result }
{
    match matches.get_str(choice.name) {
        Some(text) => read_yes(text).unwrap(),
        None => false,
    }
}

/// By which rule of an option a contact is a path's, or the rule that a name is a claim.
pub(crate) fn claim(matches: &ArgMatches, choice: &Choice) -> ClaimRule
    requires fits { Fits (entry_of choice.now) (taken_of matches.now choice.now.name.now) }
    requires kind { choice.now.kind ≡ Kind.Claim }
    requires need { choice.now.need ≡ Need.OrNamed }
    ensures { ClaimBy choice.now.kind choice.now.need
        (taken_of matches.now choice.now.name.now) result }
{
    match matches.get_str(choice.name) {
        Some(text) => read_claim(text).unwrap(),
        None => ClaimRule::Named,
    }
}

/// The port of an option that may be left out.
pub(crate) fn port(matches: &ArgMatches, choice: &Choice) -> Option<u16>
    requires fits { Fits (entry_of choice.now) (taken_of matches.now choice.now.name.now) }
    requires kind { IsTrue (ends_below 65536 choice.now.kind) }
    ensures { MayNumberBy choice.now.kind (taken_of matches.now choice.now.name.now) result }
{
    let Kind::Number { least, most } = choice.kind else {
        unreachable!()
    };
    Some(read_number(matches.get_str(choice.name)?, least, most)? as u16)
}

/// Whether an option is given.
pub(crate) fn stands(matches: &ArgMatches, choice: &Choice) -> bool
    ensures { result ≡ is_some (taken_of matches.now choice.now.name.now) }
{
    matches.get_str(choice.name).is_some()
}

/// Which contacts pass: all, if neither number of bits is given. If one is given, the other is its default.
pub(crate) fn policy(matches: &ArgMatches) -> Policy
    requires first { Fits c1_option.entry (taken_of matches.now c1_option.entry.name) }
    requires second { Fits c2_option.entry (taken_of matches.now c2_option.entry.name) }
    ensures { PolicyOf (taken_of matches.now) result }
{
    if matches.get_str(C1.name).is_none() && matches.get_str(C2.name).is_none() {
        return Policy::Plain;
    }
    Policy::Puzzled {
        c1: small(matches, &C1),
        c2: small(matches, &C2),
    }
}
