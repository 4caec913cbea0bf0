//! Operations of an expression.

ghost use Rattle.std.specs.Prelude.{◌≡◌, Some, option_map};
ghost use Rattle.std.specs.Fmt.{padded};
ghost use Rattle.dwarf_const_core.specs.Names.{name_of};
ghost use Rattle.dwarf_code_core.specs.DwOp.{operation_names, operation_text};

use dwarf_const_core::names;
use dwarf_const_core::names::{Names, pad_name};
use numbered::*;
use std::fmt;

pub mod numbered;

/// An operation of an expression, which works on a stack (DWARF 5, section 7.7.1).
///
/// `Display` writes the name, or `Unknown DwOp: 236` for a value without one, and honours width,
/// precision, fill and alignment.
#[derive(Debug, Clone, Copy, PartialEq, Eq, Hash, PartialOrd, Ord)]
pub struct DwOp(pub u8);

// Constants, addresses and the stack.

/// Pushes the address that follows.
pub const DW_OP_addr: DwOp = DwOp(0x03);
/// Replaces an address by what is stored there.
pub const DW_OP_deref: DwOp = DwOp(0x06);
/// Pushes an unsigned number of one byte.
pub const DW_OP_const1u: DwOp = DwOp(0x08);
/// Pushes a signed number of one byte.
pub const DW_OP_const1s: DwOp = DwOp(0x09);
/// Pushes an unsigned number of two bytes.
pub const DW_OP_const2u: DwOp = DwOp(0x0a);
/// Pushes a signed number of two bytes.
pub const DW_OP_const2s: DwOp = DwOp(0x0b);
/// Pushes an unsigned number of four bytes.
pub const DW_OP_const4u: DwOp = DwOp(0x0c);
/// Pushes a signed number of four bytes.
pub const DW_OP_const4s: DwOp = DwOp(0x0d);
/// Pushes an unsigned number of eight bytes.
pub const DW_OP_const8u: DwOp = DwOp(0x0e);
/// Pushes a signed number of eight bytes.
pub const DW_OP_const8s: DwOp = DwOp(0x0f);
/// Pushes an unsigned LEB128 number.
pub const DW_OP_constu: DwOp = DwOp(0x10);
/// Pushes a signed LEB128 number.
pub const DW_OP_consts: DwOp = DwOp(0x11);
/// Pushes the top again.
pub const DW_OP_dup: DwOp = DwOp(0x12);
/// Removes the top.
pub const DW_OP_drop: DwOp = DwOp(0x13);
/// Pushes the second from the top.
pub const DW_OP_over: DwOp = DwOp(0x14);
/// Pushes the one at an index from the top.
pub const DW_OP_pick: DwOp = DwOp(0x15);
/// Exchanges the first two.
pub const DW_OP_swap: DwOp = DwOp(0x16);
/// Moves the top below the next two.
pub const DW_OP_rot: DwOp = DwOp(0x17);
/// Replaces an address and an address space by what is stored there.
pub const DW_OP_xderef: DwOp = DwOp(0x18);

// Arithmetic and logic on the top of the stack.

/// The absolute value.
pub const DW_OP_abs: DwOp = DwOp(0x19);
/// Bitwise and.
pub const DW_OP_and: DwOp = DwOp(0x1a);
/// The quotient, signed.
pub const DW_OP_div: DwOp = DwOp(0x1b);
/// The difference.
pub const DW_OP_minus: DwOp = DwOp(0x1c);
/// The remainder.
pub const DW_OP_mod: DwOp = DwOp(0x1d);
/// The product.
pub const DW_OP_mul: DwOp = DwOp(0x1e);
/// The negative.
pub const DW_OP_neg: DwOp = DwOp(0x1f);
/// The complement of each bit.
pub const DW_OP_not: DwOp = DwOp(0x20);
/// Bitwise or.
pub const DW_OP_or: DwOp = DwOp(0x21);
/// The sum.
pub const DW_OP_plus: DwOp = DwOp(0x22);
/// The sum with an unsigned LEB128 number.
pub const DW_OP_plus_uconst: DwOp = DwOp(0x23);
/// Shifts to the left.
pub const DW_OP_shl: DwOp = DwOp(0x24);
/// Shifts to the right, zeros coming in.
pub const DW_OP_shr: DwOp = DwOp(0x25);
/// Shifts to the right, the sign coming in.
pub const DW_OP_shra: DwOp = DwOp(0x26);
/// Bitwise exclusive or.
pub const DW_OP_xor: DwOp = DwOp(0x27);

// Comparisons and jumps.

/// Jumps by a signed number of two bytes, if the top is not zero.
pub const DW_OP_bra: DwOp = DwOp(0x28);
/// Whether the two are equal.
pub const DW_OP_eq: DwOp = DwOp(0x29);
/// Whether the second is at least the top.
pub const DW_OP_ge: DwOp = DwOp(0x2a);
/// Whether the second is above the top.
pub const DW_OP_gt: DwOp = DwOp(0x2b);
/// Whether the second is at most the top.
pub const DW_OP_le: DwOp = DwOp(0x2c);
/// Whether the second is below the top.
pub const DW_OP_lt: DwOp = DwOp(0x2d);
/// Whether the two differ.
pub const DW_OP_ne: DwOp = DwOp(0x2e);
/// Jumps by a signed number of two bytes.
pub const DW_OP_skip: DwOp = DwOp(0x2f);

// Other registers, pieces and sizes.

/// A register given as an unsigned LEB128 number.
pub const DW_OP_regx: DwOp = DwOp(0x90);
/// Pushes the frame base with an offset added.
pub const DW_OP_fbreg: DwOp = DwOp(0x91);
/// Pushes a register, given as an unsigned LEB128 number, with an offset added.
pub const DW_OP_bregx: DwOp = DwOp(0x92);
/// What comes before is the location of the next bytes of the object.
pub const DW_OP_piece: DwOp = DwOp(0x93);
/// As `DW_OP_deref`, for a given number of bytes.
pub const DW_OP_deref_size: DwOp = DwOp(0x94);
/// As `DW_OP_xderef`, for a given number of bytes.
pub const DW_OP_xderef_size: DwOp = DwOp(0x95);
/// Nothing.
pub const DW_OP_nop: DwOp = DwOp(0x96);

// DWARF 3.

/// Pushes the address of the object in question.
pub const DW_OP_push_object_address: DwOp = DwOp(0x97);
/// Runs the expression of an entry, at an offset of two bytes.
pub const DW_OP_call2: DwOp = DwOp(0x98);
/// Runs the expression of an entry, at an offset of four bytes.
pub const DW_OP_call4: DwOp = DwOp(0x99);
/// Runs the expression of an entry of any unit.
pub const DW_OP_call_ref: DwOp = DwOp(0x9a);
/// Replaces an offset by the address in the thread's own data.
pub const DW_OP_form_tls_address: DwOp = DwOp(0x9b);
/// Pushes the address of the call frame.
pub const DW_OP_call_frame_cfa: DwOp = DwOp(0x9c);
/// What comes before is the location of the next bits of the object.
pub const DW_OP_bit_piece: DwOp = DwOp(0x9d);

// DWARF 4.

/// The object's bytes follow.
pub const DW_OP_implicit_value: DwOp = DwOp(0x9e);
/// The object's value is the top; it has no location.
pub const DW_OP_stack_value: DwOp = DwOp(0x9f);

// DWARF 5.

/// A pointer that is not kept, to what an entry describes.
pub const DW_OP_implicit_pointer: DwOp = DwOp(0xa0);
/// Pushes the address at an index.
pub const DW_OP_addrx: DwOp = DwOp(0xa1);
/// Pushes the constant at an index of the addresses.
pub const DW_OP_constx: DwOp = DwOp(0xa2);
/// Pushes what an expression gave as the subroutine was entered.
pub const DW_OP_entry_value: DwOp = DwOp(0xa3);
/// Pushes a constant of a base type.
pub const DW_OP_const_type: DwOp = DwOp(0xa4);
/// Pushes what a register has, as a base type.
pub const DW_OP_regval_type: DwOp = DwOp(0xa5);
/// As `DW_OP_deref`, as a base type.
pub const DW_OP_deref_type: DwOp = DwOp(0xa6);
/// As `DW_OP_xderef`, as a base type.
pub const DW_OP_xderef_type: DwOp = DwOp(0xa7);
/// Converts the top to a base type.
pub const DW_OP_convert: DwOp = DwOp(0xa8);
/// Reinterprets the bits of the top as a base type.
pub const DW_OP_reinterpret: DwOp = DwOp(0xa9);

// GNU, most of them before DWARF 5 had an operation for it.

/// Replaces an offset by the address in the thread's own data.
pub const DW_OP_GNU_push_tls_address: DwOp = DwOp(0xe0);
/// The value may not have been set yet.
pub const DW_OP_GNU_uninit: DwOp = DwOp(0xf0);
/// Pushes an address that is encoded as in `.eh_frame`.
pub const DW_OP_GNU_encoded_addr: DwOp = DwOp(0xf1);
/// A pointer that is not kept, to what an entry describes.
pub const DW_OP_GNU_implicit_pointer: DwOp = DwOp(0xf2);
/// Pushes what an expression gave as the subroutine was entered.
pub const DW_OP_GNU_entry_value: DwOp = DwOp(0xf3);
/// Pushes a constant of a base type.
pub const DW_OP_GNU_const_type: DwOp = DwOp(0xf4);
/// Pushes what a register has, as a base type.
pub const DW_OP_GNU_regval_type: DwOp = DwOp(0xf5);
/// As `DW_OP_deref`, as a base type.
pub const DW_OP_GNU_deref_type: DwOp = DwOp(0xf6);
/// Converts the top to a base type.
pub const DW_OP_GNU_convert: DwOp = DwOp(0xf7);
/// Reinterprets the bits of the top as a base type.
pub const DW_OP_GNU_reinterpret: DwOp = DwOp(0xf9);
/// Pushes the value of a parameter at the call.
pub const DW_OP_GNU_parameter_ref: DwOp = DwOp(0xfa);
/// Pushes the address at an index.
pub const DW_OP_GNU_addr_index: DwOp = DwOp(0xfb);
/// Pushes the constant at an index of the addresses.
pub const DW_OP_GNU_const_index: DwOp = DwOp(0xfc);
/// Pushes the value of the variable that an entry describes.
pub const DW_OP_GNU_variable_value: DwOp = DwOp(0xfd);

// WebAssembly.

/// A local, a global or a place on the operand stack.
pub const DW_OP_WASM_location: DwOp = DwOp(0xed);

// tools/constants writes this list from the declarations.
#[rattlefmt::skip]
const NAMES: Names = names![
    DW_OP_addr, DW_OP_deref, DW_OP_const1u, DW_OP_const1s, DW_OP_const2u, DW_OP_const2s,
    DW_OP_const4u, DW_OP_const4s, DW_OP_const8u, DW_OP_const8s, DW_OP_constu, DW_OP_consts,
    DW_OP_dup, DW_OP_drop, DW_OP_over, DW_OP_pick, DW_OP_swap, DW_OP_rot, DW_OP_xderef, DW_OP_abs,
    DW_OP_and, DW_OP_div, DW_OP_minus, DW_OP_mod, DW_OP_mul, DW_OP_neg, DW_OP_not, DW_OP_or,
    DW_OP_plus, DW_OP_plus_uconst, DW_OP_shl, DW_OP_shr, DW_OP_shra, DW_OP_xor, DW_OP_bra, DW_OP_eq,
    DW_OP_ge, DW_OP_gt, DW_OP_le, DW_OP_lt, DW_OP_ne, DW_OP_skip, DW_OP_lit0, DW_OP_lit1,
    DW_OP_lit2, DW_OP_lit3, DW_OP_lit4, DW_OP_lit5, DW_OP_lit6, DW_OP_lit7, DW_OP_lit8, DW_OP_lit9,
    DW_OP_lit10, DW_OP_lit11, DW_OP_lit12, DW_OP_lit13, DW_OP_lit14, DW_OP_lit15, DW_OP_lit16,
    DW_OP_lit17, DW_OP_lit18, DW_OP_lit19, DW_OP_lit20, DW_OP_lit21, DW_OP_lit22, DW_OP_lit23,
    DW_OP_lit24, DW_OP_lit25, DW_OP_lit26, DW_OP_lit27, DW_OP_lit28, DW_OP_lit29, DW_OP_lit30,
    DW_OP_lit31, DW_OP_reg0, DW_OP_reg1, DW_OP_reg2, DW_OP_reg3, DW_OP_reg4, DW_OP_reg5, DW_OP_reg6,
    DW_OP_reg7, DW_OP_reg8, DW_OP_reg9, DW_OP_reg10, DW_OP_reg11, DW_OP_reg12, DW_OP_reg13,
    DW_OP_reg14, DW_OP_reg15, DW_OP_reg16, DW_OP_reg17, DW_OP_reg18, DW_OP_reg19, DW_OP_reg20,
    DW_OP_reg21, DW_OP_reg22, DW_OP_reg23, DW_OP_reg24, DW_OP_reg25, DW_OP_reg26, DW_OP_reg27,
    DW_OP_reg28, DW_OP_reg29, DW_OP_reg30, DW_OP_reg31, DW_OP_breg0, DW_OP_breg1, DW_OP_breg2,
    DW_OP_breg3, DW_OP_breg4, DW_OP_breg5, DW_OP_breg6, DW_OP_breg7, DW_OP_breg8, DW_OP_breg9,
    DW_OP_breg10, DW_OP_breg11, DW_OP_breg12, DW_OP_breg13, DW_OP_breg14, DW_OP_breg15,
    DW_OP_breg16, DW_OP_breg17, DW_OP_breg18, DW_OP_breg19, DW_OP_breg20, DW_OP_breg21,
    DW_OP_breg22, DW_OP_breg23, DW_OP_breg24, DW_OP_breg25, DW_OP_breg26, DW_OP_breg27,
    DW_OP_breg28, DW_OP_breg29, DW_OP_breg30, DW_OP_breg31, DW_OP_regx, DW_OP_fbreg, DW_OP_bregx,
    DW_OP_piece, DW_OP_deref_size, DW_OP_xderef_size, DW_OP_nop, DW_OP_push_object_address,
    DW_OP_call2, DW_OP_call4, DW_OP_call_ref, DW_OP_form_tls_address, DW_OP_call_frame_cfa,
    DW_OP_bit_piece, DW_OP_implicit_value, DW_OP_stack_value, DW_OP_implicit_pointer, DW_OP_addrx,
    DW_OP_constx, DW_OP_entry_value, DW_OP_const_type, DW_OP_regval_type, DW_OP_deref_type,
    DW_OP_xderef_type, DW_OP_convert, DW_OP_reinterpret, DW_OP_GNU_push_tls_address,
    DW_OP_WASM_location, DW_OP_GNU_uninit, DW_OP_GNU_encoded_addr, DW_OP_GNU_implicit_pointer,
    DW_OP_GNU_entry_value, DW_OP_GNU_const_type, DW_OP_GNU_regval_type, DW_OP_GNU_deref_type,
    DW_OP_GNU_convert, DW_OP_GNU_reinterpret, DW_OP_GNU_parameter_ref, DW_OP_GNU_addr_index,
    DW_OP_GNU_const_index, DW_OP_GNU_variable_value,
];

impl DwOp {
    /// Returns the name of this value, such as `DW_OP_plus`, or `None` if it has none.
    #[tactic(auto, unfolding(crate::specs::DwOp::operation_names))]
    pub fn static_string(&self) -> Option<&'static str>
        ensures { option_map (λ s. s.now) result ≡ name_of operation_names self.now.0 }
    {
        NAMES.find(self.0 as u64)
    }
}

impl fmt::Display for DwOp {
    ghost output = { λ operation. Some (operation_text operation.0) };

    ghost styled_output = { λ operation spec. Some (padded spec (operation_text operation.0)) };

    fn fmt<W: fmt::Write>(&self, f: &mut fmt::Formatter<W>) -> fmt::Result {
        pad_name(f, self.static_string(), "DwOp", self.0 as u64)
    }
}
