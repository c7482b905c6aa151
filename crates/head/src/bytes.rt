ghost use Rattle.std.specs.Prelude.{◌≡◌, [], ◌∷◌};
ghost use Rattle.head.specs.Faults.{Answers};
ghost use Rattle.head.specs.Heads.{HeadAt, bytes_fault};

use super::*;

// The edition of the format, the first of the four bytes.
const EDITION: u8 = 1;

// Methods with names, as `u32::from_be_bytes`, and not `From` and `TryFrom`: the name says that the numbers are a format's bytes.
impl Head {
    // The head's four bytes: the edition, the side exponent, the levels, the planes.
    pub fn to_bytes(&self) -> [u8; 4]
        ensures { result ≡ 1 ∷ self.now.shape.exponent ∷ self.now.shape.levels ∷ self.now.planes ∷ [] }
    {
        [EDITION, self.shape.exponent, self.shape.levels, self.planes]
    }

    // The head that the first four bytes write, whatever stands behind them.
    pub fn from_bytes(bytes: &[u8]) -> Result<Head, HeadFault>
        ensures { Answers result (bytes_fault bytes.now) (λ h. HeadAt bytes.now h) }
    {
        match bytes {
            [EDITION, m, k, p, ..] => Head::new(*m, *k, *p),
            [_, m, k, p, ..] => {
                Head::new(*m, *k, *p)?;
                Err(HeadFault::Edition)
            }
            _ => Err(HeadFault::Buffer),
        }
    }
}
