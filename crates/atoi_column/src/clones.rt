//! A clone of an iterator gives the same items.

use crate::column::Column;
use crate::fields::Fields;
use atoi_core::clones_are_the_same;
use atoi_simd::Parse;

fn clones<T: Parse>() {
    clones_are_the_same::<Column<'_, T>>();
    clones_are_the_same::<Fields<'_, T>>();
}
