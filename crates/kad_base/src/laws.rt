//! What holds of this crate's constants.
ghost use Rattle.std.specs.Prelude.{◌≡◌, ◌+◌};
ghost use Rattle.kad_base.specs.Limits.{max_alpha, max_answered_tx, max_bits, max_datagram, max_input, max_k, max_lookups, max_open, max_path_contacts, max_paths, max_peers, max_reports, max_round_receives, max_siblings, max_strays, max_timeout, max_wait};
ghost use Rattle.kad_base.specs.declared.limits.TheConstants.{MAX_ALPHA, MAX_ANSWERED_TX, MAX_BITS, MAX_DATAGRAM, MAX_INPUT, MAX_K, MAX_LOOKUPS, MAX_OPEN, MAX_PATH_CONTACTS, MAX_PATHS, MAX_PEERS, MAX_REPORTS, MAX_ROUND_RECEIVES, MAX_SIBLINGS, MAX_STRAYS, MAX_TIMEOUT, MAX_WAIT, RECEIVE_ROOM};

/// The constants of the code are the limits that the definitions name.
pub fn limits_are()
    ensures k { MAX_K ≡ max_k }
    ensures paths { MAX_PATHS ≡ max_paths }
    ensures alpha { MAX_ALPHA ≡ max_alpha }
    ensures open { MAX_OPEN ≡ max_open }
    ensures path_contacts { MAX_PATH_CONTACTS ≡ max_path_contacts }
    ensures reports { MAX_REPORTS ≡ max_reports }
    ensures timeout { MAX_TIMEOUT ≡ max_timeout }
    ensures bits { MAX_BITS ≡ max_bits }
    ensures siblings { MAX_SIBLINGS ≡ max_siblings }
    ensures datagram { MAX_DATAGRAM ≡ max_datagram }
    ensures receive_room { RECEIVE_ROOM ≡ max_datagram + 1 }
    ensures strays { MAX_STRAYS ≡ max_strays }
    ensures round_receives { MAX_ROUND_RECEIVES ≡ max_round_receives }
    ensures wait { MAX_WAIT ≡ max_wait }
    ensures lookups { MAX_LOOKUPS ≡ max_lookups }
    ensures input { MAX_INPUT ≡ max_input }
    ensures peers { MAX_PEERS ≡ max_peers }
    ensures answered_tx { MAX_ANSWERED_TX ≡ max_answered_tx }
{}
