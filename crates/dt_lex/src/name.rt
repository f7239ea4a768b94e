ghost use Rattle.std.specs.Prelude.{◌≡◌, true, IfSome};
ghost use Rattle.std.specs.List.{list_all};
ghost use Rattle.dt_lex.specs.Names.{is_lower, goes_on, spells_name, padded_name, name_of, bytes_of, IsName};

/// The most bytes of a name.
const NAME_MAX: usize = 31;

/// A name of 1 to 31 bytes: a lower-case letter, then lower-case letters, digits or underscores.
/// It is made by [`Name::read`] and [`Name::spelled`] alone, so that its bytes behind `len` are
/// zeros and two names are `==` exactly where they are spelled alike.
#[derive(Clone, Copy, Debug, PartialEq, Eq, PartialOrd, Ord, Hash)]
pub struct Name {
    bytes: [u8; 31],
    len: u8,
}

fn is_lower(b: u8) -> bool
    ensures { result ≡ is_lower b }
{
    b >= b'a' && b <= b'z'
}

fn goes_on(b: u8) -> bool
    ensures { result ≡ goes_on b }
{
    is_lower(b) || (b >= b'0' && b <= b'9') || b == b'_'
}

fn all_go_on(bytes: &[u8]) -> bool
    ensures { result ≡ list_all goes_on bytes.now }
{
    bytes.iter().all(|b| goes_on(*b))
}

#[tactic(auto, using(crate::proofs::Padded::spells_short, crate::proofs::Padded::spells_long, crate::proofs::Padded::spells_none))]
fn spells_name(token: &[u8]) -> bool
    ensures { result ≡ spells_name token.now }
{
    match token {
        [first, ..] if token.len() <= NAME_MAX => { is_lower(*first) && all_go_on(token) }
        _ => false,
    }
}

impl Name {
    #[tactic(auto, using(crate::proofs::Padded::name_of_not, crate::proofs::Padded::name_of_spells))]
    /// The name that the bytes spell, and None exactly where they spell none.
    pub fn read(bytes: &[u8]) -> Option<Name>
        ensures value { result ≡ name_of bytes.now }
        ensures valid { IfSome result IsName }
        ensures spelled { IfSome result (λ n. bytes_of n ≡ bytes.now) }
    {
        if !spells_name(bytes) {
            return None;
        }
        Some(Name::spelled(bytes))
    }

    #[tactic(auto, using(crate::proofs::Padded::padded_at, crate::proofs::Padded::padded_is, crate::proofs::Padded::padded_bytes, crate::proofs::Padded::spelled_short))]
    /// The name of these bytes, which spell one: for names that are constants of a program.
    pub fn spelled(bytes: &[u8]) -> Name
        requires { spells_name bytes.now ≡ true }
        ensures value { result ≡ padded_name bytes.now }
        ensures valid { IsName result }
        ensures spelled { bytes_of result ≡ bytes.now }
    {
        let mut padded = [0u8; NAME_MAX];
        let (front, _) = padded.split_at_mut(bytes.len());
        front.copy_from_slice(bytes);
        Name {
            bytes: padded,
            len: bytes.len() as u8,
        }
    }

    /// The bytes of the name, 1 to 31 of them.
    pub fn bytes(&self) -> &[u8]
        ensures { result.now ≡ bytes_of self.now }
    {
        &self.bytes[..(self.len as usize).min(NAME_MAX)]
    }
}
