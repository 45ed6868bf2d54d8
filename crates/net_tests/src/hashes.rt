//! Hashes under the key of a run, compared with what Python's hashlib and its integers give.

use crate::comparison::expect;
use net_sets::HashKey;
use std::alloc::{AllocError, Global};
use std::hash::{BuildHasher, Hasher};
use std::test::Fail;

/// A model, its data, the words that are hashed, and their hash.
const HASHES: &[(&str, &str, &[u64], &str)] = &[
    ("set S;", "set S := 1 2;", &[], "3586369757667112457"),
    ("set S;", "set S := 1 2;", &[1], "18403207861710651202"),
    ("set S;", "set S := 1 2;", &[2], "18403207861710651203"),
    ("set S;", "set S := 1 2;", &[1, 2], "603369448911462218"),
    ("set S;", "set S := 1 3;", &[1, 2], "12085253370630214995"),
    (
        "set S; ",
        "set S := 1 2;",
        &[u64::MAX],
        "9756142713028658881",
    ),
];

fn hash_of(alloc: Global, key: HashKey, words: &[u64]) -> Result<String, AllocError> {
    let mut hasher = key.build_hasher();
    for word in words {
        hasher.write_u64(*word);
    }
    let hash = hasher.finish();
    format!(in alloc; "{hash}")
}

#[test]
fn words_have_their_hashes(rt: HostRuntime) -> Result<(), Fail> {
    for (model, data, words, wanted) in HASHES {
        let key = HashKey::of_texts(model.as_bytes(), data.as_bytes());
        expect(data, hash_of(rt.alloc(), key, words), wanted)?;
    }
    Ok(())
}
