// Laws of certificates of every kind.

ghost use Rattle.std.specs.Prelude.{◌<◌, ◌∷◌, ◌++◌, ℕ, true, List, length, Some};
ghost use Rattle.cnf_form.specs.Cnf.{FormulaOf};
ghost use Rattle.cnf_form.specs.Dimacs.{IsDimacs};
ghost use Rattle.sby_terms.specs.declared.names.Answer.{Answer};
ghost use Rattle.cert_judge.specs.Fate.{Found};
ghost use Rattle.cert_judge.specs.KindCert.{Counts, HoldsCert, IsClosedCert, IsSpace};
ghost use Rattle.cert_judge.specs.Kinds.{IsFate, IsFateSoFar};
ghost use Rattle.cert_judge.specs.Output.{stream_of};
ghost use Rattle.cert_judge.specs.OutputFate.{IsOutputFate};
ghost use Rattle.cert_judge.specs.declared.stream.StreamKind.{StreamKind};
ghost use Rattle.cert_judge.specs.declared.stream.StreamKind.TheVariants.{Drup, Lrat};

/// A stream is found to be a certificate exactly where it begins with one of its kind that counts, whatever comes then, or is a proof file
/// that its end completes.
#[tactic(auto, using(crate::proofs::KindCerts::held_found, crate::proofs::KindCerts::found_holds))]
pub fn certificates_are_found()
    ensures found { (kind : StreamKind) (job stream : List ℕ) (most : ℕ) (answer : Answer) → HoldsCert kind job stream most answer
        → IsFate kind job stream most (Found answer) }
    ensures holds { (kind : StreamKind) (job stream : List ℕ) (most : ℕ) (answer : Answer) → IsFate kind job stream most (Found answer)
        → HoldsCert kind job stream most answer }
{}

/// A certificate that ends with its own 0 is found once what follows makes it count, whatever comes then.
pub fn certificates_are_found_before_more()
    ensures { (kind : StreamKind) (job cert rest : List ℕ) (b most : ℕ) (answer : Answer) (f : FormulaOf) → IsDimacs job f → IsClosedCert kind f cert answer
        → Counts kind most cert (b ∷ rest) → IsFateSoFar kind job (cert ++ b ∷ rest) most (Some (Found answer)) }
{}

/// A found fate of DRUP text or of hinted text stays where white space or a line feed follows.
#[tactic(auto, using(crate::proofs::KindCerts::drup_stays, crate::proofs::KindCerts::lrat_stays))]
pub fn found_fates_stay_before_more()
    ensures drup { (job stream rest : List ℕ) (b most : ℕ) (answer : Answer) → IsFate Drup job stream most (Found answer) → IsSpace b → length stream < most
        → IsFateSoFar Drup job (stream ++ b ∷ rest) most (Some (Found answer)) }
    ensures hinted { (job stream rest : List ℕ) (b most : ℕ) (answer : Answer) → IsFate Lrat job stream most (Found answer) → IsSpace b → length stream < most
        → IsFateSoFar Lrat job (stream ++ b ∷ rest) most (Some (Found answer)) }
{}

/// A solver's output is found to be a certificate exactly where the stream as which it is read is.
#[tactic(auto, using(crate::proofs::KindCerts::output_found, crate::proofs::KindCerts::output_holds))]
pub fn outputs_hold_certificates()
    ensures found { (job bytes : List ℕ) (most : ℕ) (answer : Answer) → HoldsCert Drup job (stream_of true bytes) most answer
        → IsOutputFate job bytes most (Some (Found answer)) }
    ensures holds { (job bytes : List ℕ) (most : ℕ) (answer : Answer) → IsOutputFate job bytes most (Some (Found answer))
        → HoldsCert Drup job (stream_of true bytes) most answer }
{}
