//! What a docket holds, to look at.
ghost use Rattle.std.specs.Prelude.{◌≡◌, ◌≤◌, length, is_some};
ghost use Rattle.calls_docket.specs.Finding.{claim_like};

use crate::docket::Docket;
use crate::finding::find_claim;
use certificate_pairing::Claim;
use rules_amounts::ContractSize;
use rules_positions::Record;

impl<B> Docket<B> {
    /// The book that it keeps.
    pub fn book(&self) -> &B
        ensures { result.now ≡ self.now.book }
    {
        &self.book
    }

    /// The units in a contract.
    pub fn size(&self) -> ContractSize
        ensures { result.units ≡ self.now.size }
    {
        self.size
    }

    /// The positions held, in order of entry.
    pub fn positions(&self) -> &[Record]
        ensures items { result.now ≡ self.now.tally.held }
        ensures few { length result.now ≤ 32 }
    {
        &self.held
    }

    /// The claims standing.
    pub fn claims(&self) -> &[Claim]
        ensures items { result.now ≡ self.now.tally.claims }
        ensures few { length result.now ≤ 64 }
    {
        &self.claims
    }

    /// Whether a claim of the same article and legs stands.
    pub fn has_claim(&self, c: &Claim) -> bool
        ensures { result ≡ is_some (claim_like self.now.tally.claims c.now) }
    {
        find_claim(self.claims(), c).is_some()
    }
}
