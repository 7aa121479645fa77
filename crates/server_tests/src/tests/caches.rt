// A cache by example.
use super::questions::{Asked, Settled};
use board_core::Cache;
use bv_base::{Answered, Question};
use std::alloc::Global;
use std::process::Abort;
use std::sync::Arc;
use std::test::Fail;

fn found(cache: &Cache<Settled>, key: &[u8]) -> Option<bool> {
    match cache.find(key) {
        Some(answer) => Some(answer.proved),
        None => None,
    }
}

fn keep<R: Abort>(rt: &R, cache: &mut Cache<Settled>, answer: Arc<Settled, Global>) {
    assert!(rt; cache.has_place(answer.question().key()));
    cache.keep(answer);
}

#[test]
fn an_older_answer_stays_and_is_found_by_its_key(rt: HostRuntime) -> Result<(), Fail> {
    let alloc = rt.alloc();
    let mut cache = Cache::new(alloc);
    let key = Vec::from_slice(alloc, &[1, 2])?;
    let question = Arc::new(alloc, Asked { key })?;
    cache.place(&question)?;
    assert!(rt; cache.has_place(&[1, 2]) && !cache.has_place(&[2, 1]));
    assert_eq!(rt; found(&cache, &[1, 2]), None);
    for proved in [true, false] {
        let question = question.clone()?;
        let answer = Arc::new(alloc, Settled { question, proved })?;
        keep(&rt, &mut cache, answer);
        assert_eq!(rt; found(&cache, &[1, 2]), Some(true));
    }
    cache.unplace(&[1, 2]);
    cache.trim(&[])?;
    assert_eq!(rt; found(&cache, &[1, 2]), Some(true));
    assert_eq!(rt; found(&cache, &[1]), None);
    Ok(())
}
