// Laws of the texts of proofs.
ghost use Rattle.proof_text.specs.Reading.{OneProofATextHas, OneBadPlace};
ghost use Rattle.proof_text.specs.RoundTrip.{ReadGivesBack};

/// A proof has one text, and a text is that of one proof.
pub fn one_proof_a_text_has()
    ensures { OneProofATextHas }
{}

/// Bytes are bad at one place alone.
pub fn one_bad_place()
    ensures { OneBadPlace }
{}

/// Of the text of a proof `read` gives that proof, or there is no memory.
pub fn read_gives_back()
    ensures { ReadGivesBack }
{}
