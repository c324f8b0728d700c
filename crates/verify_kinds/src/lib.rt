//! Whether the slots that an instruction takes are of the kinds that it asks for (ECMA-335 III.1.5, III.3, III.4), and
//! whether its operands name what it uses: exactly, one file for each family of instructions.
#![tactic(auto)]

mod array;
mod compare;
mod operands;
mod slot;

pub use array::{
    accesses, element_of, is_address_of, is_any_held, is_array_of, is_element_type, is_value_held,
    size_of,
};
pub use compare::{is_branched_on, is_compared, is_condition, is_converted};
pub use operands::{
    array_and_index, is_own_place, one_32, one_address, one_condition, one_converted, one_kept,
    one_number, one_reference, two_branched_on, two_compared, two_of_one_size, two_shifted,
    value_and_address,
};
pub use slot::{
    are_one_size, are_references, is_32, is_64, is_kept, is_length, is_null, is_number,
    is_reference,
};
