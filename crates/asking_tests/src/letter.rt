// An example of a side: the body of a value is one byte.
ghost use Rattle.std.specs.Prelude.{◌≡◌, ◌∷◌, [], ⊤};
ghost use Rattle.std.proofs.Common.{ap, ◌∙◌, refl, rules, lit<, lit≤};
ghost use Rattle.asking_tests.specs.Letter.{one_byte, one_byte-spelled};

use session_proto::{Fault, ReadError, Side, Version};
use std::alloc::{AllocError, Global};

/// One byte.
#[derive(Clone, Copy, Debug, PartialEq, Eq)]
pub struct Letter(pub u8);

impl Side for Letter {
    ghost MOST = { 32787 };

    ghost body = { λ v. v.0 ∷ [] };

    ghost fits = { λ _ _. ⊤ };

    ghost body_at = { λ _. one_byte (λ b. record { 0 = b }) };

    ghost few = { lit< tt };

    ghost in_limits = { λ _ _ _. (lit< tt, lit≤ tt) };

    ghost again = { λ _ _ _. refl };

    ghost spelled = { λ _ bytes v _ _ says. let found = one_byte-spelled (λ b. record { 0 = b }) bytes v says in
        (tt, found.0 ∙ ap (λ x. x.0 ∷ []) found.1) };

    const MOST: u32 = 32_787;

    fn put_body(&self, _version: Version, out: &mut Vec<u8>) -> Result<(), AllocError> {
        out.push(self.0)?;
        Ok(())
    }

    fn read_body(_alloc: Global, _version: Version, bytes: &[u8]) -> Result<Letter, ReadError> {
        match bytes {
            [byte] => Ok(Letter(*byte)),
            _ => Err(ReadError::Fault(Fault::BadBody)),
        }
    }
}
