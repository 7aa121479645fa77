// Digests of bytes, and of declarations.
ghost use Rattle.std.specs.Prelude.{◌≡◌, [], ◌++◌, map, flat_map, slice_index_or, IfOk, OnOk};
ghost use Rattle.sha2.specs.Sha256.{sha256};
ghost use Rattle.bpl_model.specs.Walk.{text_at};
ghost use Rattle.stmt_checksum.specs.ContractDigests.{digest_at, digests_of};

use bpl_model::DeclText;
use sha2::{Digest, Sha256};
use std::alloc::{AllocError, Global};

/// The digest of bytes.
pub fn digest(bytes: &[u8]) -> [u8; 32]
    ensures { result ≡ sha256 bytes.now }
{
    Sha256::digest(bytes)
}

/// The digests of the declarations' canonical texts without a body.
pub fn contract_digests(alloc: Global, texts: &[DeclText]) -> Result<Vec<[u8; 32]>, AllocError>
    ensures { IfOk result (λ v. v.items ≡ digests_of texts.now) }
{
    let mut digests = Vec::new(alloc);
    for text in texts {
        digests.push(digest(&text.contract))?;
    }
    Ok(digests)
}

// The digest of the declaration at a position; that of no bytes where there is none.
fn digest_at(digests: &[[u8; 32]], at: u64) -> [u8; 32]
    ensures { result ≡ digest_at digests.now at }
{
    match digests.get(at as usize) {
        Some(found) => *found,
        None => digest(&[]),
    }
}

/// Puts the digests of the declarations at these positions behind bytes.
pub fn push_digests(
    bytes: &mut Vec<u8>,
    digests: &[[u8; 32]],
    positions: &[u64],
) -> Result<(), AllocError>
    ensures { OnOk result (bytes.new.items ≡ bytes.old.items ++ flat_map (digest_at digests.now) positions.now) }
{
    for at in positions {
        bytes.extend_from_slice(&digest_at(digests, *at))?;
    }
    Ok(())
}
