//! Which types are complete where (C99 6.2.5).
ghost use Rattle.std.specs.Prelude.{◌≡◌, ℕ, true};
ghost use Rattle.ck_conversions.specs.Parts.{bytes_of, type_in};
ghost use Rattle.ck_prog.specs.BinarySenses as binary;
ghost use Rattle.ck_prog.specs.Declarations.{Place};
ghost use Rattle.ck_prog.specs.Sizes as sizes;
ghost use Rattle.ck_types.specs.TypeTable as table;
ghost use Rattle.ck_types.specs.Types.{StructIdentity};

use crate::parts::pointed;
use ck_types::{TypeId, Types};

/// Which types are complete where, how large, and which have a part that is const (C99 6.2.5, 6.3.2.1, 6.5.3.4).
///
/// `names` says which structs the numbers of structs name, `knows` which place is known by a number.
pub trait Objects {
    ghost names: { Self → (ℕ → StructIdentity) → Type 0 };

    ghost knows: { Self → ℕ → Place → Type 0 };

    /// Whether there are objects of a type, at a place that is known by its number.
    fn is_complete(&self, types: &Types, at: u32, id: TypeId) -> bool
        requires { table.names_type types.now id.0 ≡ true }
        ensures { (identity : ℕ → StructIdentity) (p : Place) → names self.now identity → knows self.now at p
            → result ≡ sizes.is_complete p (type_in identity types.now id) };

    /// Whether a part of an object of a type is const, at a place that is known by its number.
    fn has_constant(&self, types: &Types, at: u32, id: TypeId) -> bool
        requires { table.names_type types.now id.0 ≡ true }
        ensures { (identity : ℕ → StructIdentity) (p : Place) → names self.now identity → knows self.now at p
            → result ≡ sizes.has_constant p (type_in identity types.now id) };

    /// The bytes of an object of a type (6.5.3.4), none where there are no such objects or it is too large, at a place
    /// that is known by its number.
    fn size(&self, types: &Types, at: u32, id: TypeId) -> Option<u32>
        requires { table.names_type types.now id.0 ≡ true }
        ensures { (identity : ℕ → StructIdentity) (p : Place) → names self.now identity → knows self.now at p
            → result ≡ bytes_of (sizes.if_small (sizes.layout p (type_in identity types.now id))) };
}

/// Whether it is a pointer to a complete type of objects (6.5.6), at a place that is known by its number.
pub fn points_to_object<O: Objects>(objects: &O, types: &Types, at: u32, id: TypeId) -> bool
    requires { table.names_type types.now id.0 ≡ true }
    ensures { (identity : ℕ → StructIdentity) (p : Place) → O.names objects.now identity → O.knows objects.now at p
        → result ≡ binary.points_to_object p (type_in identity types.now id) }
{
    let Some(to) = pointed(types, id) else {
        return false;
    };
    objects.is_complete(types, at, to.type_id)
}
