//! Laws of differences, and of tables as finite maps.

ghost use Rattle.ent_log.specs.Law.{DifferenceIsOfMaps, DifferencesAreUnique, MapsAreLeft, MapsAreTables, MapsStay};

/// Law: two tables have one difference alone, where the order tells all keys apart.
pub fn differences_are_unique<K: Ord, A: PartialEq>()
    ensures { DifferencesAreUnique {K = K} {A = A} K.cmp A.eq }
{}

/// Law: a log gives the tables at its serials as finite maps too. Over an edit, and where tables are forgotten, these
/// maps stay the same, where the order tells all keys apart.
pub fn maps_stay<K: Ord, A>()
    ensures tables { MapsAreTables A K.cmp }
    ensures stay { MapsStay A K.cmp }
    ensures left { MapsAreLeft A K.cmp }
{}

/// Law: the difference of two tables that are finite maps is what these have at their keys, in order, where they
/// differ. The order tells all keys apart.
pub fn difference_is_of_maps<K: Ord, A: Eq>()
    ensures { DifferenceIsOfMaps {K = K} {A = A} K.cmp A.eq }
{}
