// The texts of requests.
ghost use Rattle.std.specs.Prelude.{◌≡◌, ◌-◌, ◌^◌, nat_lt, length, true, string_bytes};
ghost use Rattle.std.specs.List.{list_all};
ghost use Rattle.request_text.specs.RequestView.{request_view};
ghost use Rattle.program_edits.specs.Refusals.{TextsAreShort};

use request_text::{Put, Request};

// Whether the text's bytes can be told by numbers of 32 bits.
fn is_short(text: &str) -> bool
    ensures { result ≡ nat_lt (length text.now) (2 ^ 32 - 1) }
{
    text.len() < 4_294_967_295
}

// Whether the text of each put has fewer than 2^32 - 1 bytes.
fn are_short(puts: &[Put]) -> bool
    ensures { result ≡ list_all (λ p. nat_lt (length (string_bytes p.text)) (2 ^ 32 - 1)) puts.now }
{
    puts.iter().all(|put| is_short(put.text.as_str()))
}

/// Whether each text of the request has fewer than 2^32 - 1 bytes, so that its places can be counted.
#[tactic(auto, using(crate::proofs::ShortTexts::open_short, crate::proofs::ShortTexts::edit_short, crate::proofs::ShortTexts::others_short))]
pub fn has_short_texts(request: &Request) -> bool
    ensures { result ≡ true → TextsAreShort (request_view request.now) }
{
    match request {
        Request::Open { text } => is_short(text.as_str()),
        Request::Edit { put, .. } => are_short(put.as_slice()),
        Request::Status | Request::Report | Request::Sums | Request::Proofs | Request::Quit => true,
    }
}
