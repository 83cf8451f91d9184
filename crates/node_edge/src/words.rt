//! The words of the command line, and the key of a group that only the environment names.
ghost use Rattle.std.specs.Prelude.{◌≡◌, ◌≢◌, [], ◌∷◌, ◌++◌, OnOk, codes, map, string_bytes};
ghost use Rattle.std.specs.IoError.{error_kind};

use crate::refusal::Refusal;
use kad_words::lacks_group;
use std::alloc::{AllocError, Global};
use std::env::VarError;
use std::io::ErrorKind;
use std::rt::Env;
use std::{env, io};

/// The words after the program's name, and after them a group's key if only the environment names one.
pub fn words_of<R: Env + AllocGlobal>(rt: &R) -> Result<Vec<String>, Refusal> {
    let mut words = words_given(rt)?;
    if lacks_group(words.as_slice()) {
        if let Some(key) = key_given(rt)? {
            put_group(rt.alloc(), &mut words, key).map_err(|_| Refusal::Memory)?;
        }
    }
    Ok(words)
}

/// The words after the program's name.
fn words_given<R: Env + AllocGlobal>(rt: &R) -> Result<Vec<String>, Refusal> {
    let args = env::args(rt).map_err(|e| refusal_of(&e))?;
    args.skip(1)
        .collect(rt.alloc())
        .map_err(|_: AllocError| Refusal::Memory)
}

/// What the error of reading the words means.
fn refusal_of(error: &io::Error) -> Refusal
    ensures memory { error_kind error.now ≡ ErrorKind.OutOfMemory → result ≡ Refusal.Memory }
    ensures start { error_kind error.now ≢ ErrorKind.OutOfMemory → result ≡ Refusal.Start }
{
    match error.kind() {
        ErrorKind::OutOfMemory => Refusal::Memory,
        _ => Refusal::Start,
    }
}

/// The key of a group in the environment, which those who may list processes and their words can't read. An empty one
/// counts as none. One that isn't UTF-8 is no key either, as the empty word is none.
fn key_given<R: Env + AllocGlobal>(rt: &R) -> Result<Option<String>, Refusal> {
    match env::var(rt, "NOLZAVIRT_GROUP") {
        Ok(key) => Ok((!key.is_empty()).then_some(key)),
        Err(VarError::NotPresent) => Ok(None),
        Err(VarError::NotUnicode) => Ok(Some(String::new(rt.alloc()))),
        Err(VarError::OutOfMemory) => Err(Refusal::Memory),
    }
}

/// Puts a group's key after the words, as its option.
fn put_group(alloc: Global, words: &mut Vec<String>, key: String) -> Result<(), AllocError>
    ensures { OnOk result (map (λ w. string_bytes w) words.new.items
        ≡ map (λ w. string_bytes w) words.old.items ++ codes "--group" ∷ string_bytes key ∷ []) }
{
    words.push(String::from_str(alloc, "--group")?)?;
    words.push(key)?;
    Ok(())
}
