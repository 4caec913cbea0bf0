//! Operations with a number in their name: small constants, and the first 32 registers.

use super::DwOp;

// Small numbers.

/// Pushes 0.
pub const DW_OP_lit0: DwOp = DwOp(0x30);
/// Pushes 1.
pub const DW_OP_lit1: DwOp = DwOp(0x31);
/// Pushes 2.
pub const DW_OP_lit2: DwOp = DwOp(0x32);
/// Pushes 3.
pub const DW_OP_lit3: DwOp = DwOp(0x33);
/// Pushes 4.
pub const DW_OP_lit4: DwOp = DwOp(0x34);
/// Pushes 5.
pub const DW_OP_lit5: DwOp = DwOp(0x35);
/// Pushes 6.
pub const DW_OP_lit6: DwOp = DwOp(0x36);
/// Pushes 7.
pub const DW_OP_lit7: DwOp = DwOp(0x37);
/// Pushes 8.
pub const DW_OP_lit8: DwOp = DwOp(0x38);
/// Pushes 9.
pub const DW_OP_lit9: DwOp = DwOp(0x39);
/// Pushes 10.
pub const DW_OP_lit10: DwOp = DwOp(0x3a);
/// Pushes 11.
pub const DW_OP_lit11: DwOp = DwOp(0x3b);
/// Pushes 12.
pub const DW_OP_lit12: DwOp = DwOp(0x3c);
/// Pushes 13.
pub const DW_OP_lit13: DwOp = DwOp(0x3d);
/// Pushes 14.
pub const DW_OP_lit14: DwOp = DwOp(0x3e);
/// Pushes 15.
pub const DW_OP_lit15: DwOp = DwOp(0x3f);
/// Pushes 16.
pub const DW_OP_lit16: DwOp = DwOp(0x40);
/// Pushes 17.
pub const DW_OP_lit17: DwOp = DwOp(0x41);
/// Pushes 18.
pub const DW_OP_lit18: DwOp = DwOp(0x42);
/// Pushes 19.
pub const DW_OP_lit19: DwOp = DwOp(0x43);
/// Pushes 20.
pub const DW_OP_lit20: DwOp = DwOp(0x44);
/// Pushes 21.
pub const DW_OP_lit21: DwOp = DwOp(0x45);
/// Pushes 22.
pub const DW_OP_lit22: DwOp = DwOp(0x46);
/// Pushes 23.
pub const DW_OP_lit23: DwOp = DwOp(0x47);
/// Pushes 24.
pub const DW_OP_lit24: DwOp = DwOp(0x48);
/// Pushes 25.
pub const DW_OP_lit25: DwOp = DwOp(0x49);
/// Pushes 26.
pub const DW_OP_lit26: DwOp = DwOp(0x4a);
/// Pushes 27.
pub const DW_OP_lit27: DwOp = DwOp(0x4b);
/// Pushes 28.
pub const DW_OP_lit28: DwOp = DwOp(0x4c);
/// Pushes 29.
pub const DW_OP_lit29: DwOp = DwOp(0x4d);
/// Pushes 30.
pub const DW_OP_lit30: DwOp = DwOp(0x4e);
/// Pushes 31.
pub const DW_OP_lit31: DwOp = DwOp(0x4f);

// A register is the location.

/// Register 0.
pub const DW_OP_reg0: DwOp = DwOp(0x50);
/// Register 1.
pub const DW_OP_reg1: DwOp = DwOp(0x51);
/// Register 2.
pub const DW_OP_reg2: DwOp = DwOp(0x52);
/// Register 3.
pub const DW_OP_reg3: DwOp = DwOp(0x53);
/// Register 4.
pub const DW_OP_reg4: DwOp = DwOp(0x54);
/// Register 5.
pub const DW_OP_reg5: DwOp = DwOp(0x55);
/// Register 6.
pub const DW_OP_reg6: DwOp = DwOp(0x56);
/// Register 7.
pub const DW_OP_reg7: DwOp = DwOp(0x57);
/// Register 8.
pub const DW_OP_reg8: DwOp = DwOp(0x58);
/// Register 9.
pub const DW_OP_reg9: DwOp = DwOp(0x59);
/// Register 10.
pub const DW_OP_reg10: DwOp = DwOp(0x5a);
/// Register 11.
pub const DW_OP_reg11: DwOp = DwOp(0x5b);
/// Register 12.
pub const DW_OP_reg12: DwOp = DwOp(0x5c);
/// Register 13.
pub const DW_OP_reg13: DwOp = DwOp(0x5d);
/// Register 14.
pub const DW_OP_reg14: DwOp = DwOp(0x5e);
/// Register 15.
pub const DW_OP_reg15: DwOp = DwOp(0x5f);
/// Register 16.
pub const DW_OP_reg16: DwOp = DwOp(0x60);
/// Register 17.
pub const DW_OP_reg17: DwOp = DwOp(0x61);
/// Register 18.
pub const DW_OP_reg18: DwOp = DwOp(0x62);
/// Register 19.
pub const DW_OP_reg19: DwOp = DwOp(0x63);
/// Register 20.
pub const DW_OP_reg20: DwOp = DwOp(0x64);
/// Register 21.
pub const DW_OP_reg21: DwOp = DwOp(0x65);
/// Register 22.
pub const DW_OP_reg22: DwOp = DwOp(0x66);
/// Register 23.
pub const DW_OP_reg23: DwOp = DwOp(0x67);
/// Register 24.
pub const DW_OP_reg24: DwOp = DwOp(0x68);
/// Register 25.
pub const DW_OP_reg25: DwOp = DwOp(0x69);
/// Register 26.
pub const DW_OP_reg26: DwOp = DwOp(0x6a);
/// Register 27.
pub const DW_OP_reg27: DwOp = DwOp(0x6b);
/// Register 28.
pub const DW_OP_reg28: DwOp = DwOp(0x6c);
/// Register 29.
pub const DW_OP_reg29: DwOp = DwOp(0x6d);
/// Register 30.
pub const DW_OP_reg30: DwOp = DwOp(0x6e);
/// Register 31.
pub const DW_OP_reg31: DwOp = DwOp(0x6f);

// A register and a signed offset.

/// Pushes register 0 with an offset added.
pub const DW_OP_breg0: DwOp = DwOp(0x70);
/// Pushes register 1 with an offset added.
pub const DW_OP_breg1: DwOp = DwOp(0x71);
/// Pushes register 2 with an offset added.
pub const DW_OP_breg2: DwOp = DwOp(0x72);
/// Pushes register 3 with an offset added.
pub const DW_OP_breg3: DwOp = DwOp(0x73);
/// Pushes register 4 with an offset added.
pub const DW_OP_breg4: DwOp = DwOp(0x74);
/// Pushes register 5 with an offset added.
pub const DW_OP_breg5: DwOp = DwOp(0x75);
/// Pushes register 6 with an offset added.
pub const DW_OP_breg6: DwOp = DwOp(0x76);
/// Pushes register 7 with an offset added.
pub const DW_OP_breg7: DwOp = DwOp(0x77);
/// Pushes register 8 with an offset added.
pub const DW_OP_breg8: DwOp = DwOp(0x78);
/// Pushes register 9 with an offset added.
pub const DW_OP_breg9: DwOp = DwOp(0x79);
/// Pushes register 10 with an offset added.
pub const DW_OP_breg10: DwOp = DwOp(0x7a);
/// Pushes register 11 with an offset added.
pub const DW_OP_breg11: DwOp = DwOp(0x7b);
/// Pushes register 12 with an offset added.
pub const DW_OP_breg12: DwOp = DwOp(0x7c);
/// Pushes register 13 with an offset added.
pub const DW_OP_breg13: DwOp = DwOp(0x7d);
/// Pushes register 14 with an offset added.
pub const DW_OP_breg14: DwOp = DwOp(0x7e);
/// Pushes register 15 with an offset added.
pub const DW_OP_breg15: DwOp = DwOp(0x7f);
/// Pushes register 16 with an offset added.
pub const DW_OP_breg16: DwOp = DwOp(0x80);
/// Pushes register 17 with an offset added.
pub const DW_OP_breg17: DwOp = DwOp(0x81);
/// Pushes register 18 with an offset added.
pub const DW_OP_breg18: DwOp = DwOp(0x82);
/// Pushes register 19 with an offset added.
pub const DW_OP_breg19: DwOp = DwOp(0x83);
/// Pushes register 20 with an offset added.
pub const DW_OP_breg20: DwOp = DwOp(0x84);
/// Pushes register 21 with an offset added.
pub const DW_OP_breg21: DwOp = DwOp(0x85);
/// Pushes register 22 with an offset added.
pub const DW_OP_breg22: DwOp = DwOp(0x86);
/// Pushes register 23 with an offset added.
pub const DW_OP_breg23: DwOp = DwOp(0x87);
/// Pushes register 24 with an offset added.
pub const DW_OP_breg24: DwOp = DwOp(0x88);
/// Pushes register 25 with an offset added.
pub const DW_OP_breg25: DwOp = DwOp(0x89);
/// Pushes register 26 with an offset added.
pub const DW_OP_breg26: DwOp = DwOp(0x8a);
/// Pushes register 27 with an offset added.
pub const DW_OP_breg27: DwOp = DwOp(0x8b);
/// Pushes register 28 with an offset added.
pub const DW_OP_breg28: DwOp = DwOp(0x8c);
/// Pushes register 29 with an offset added.
pub const DW_OP_breg29: DwOp = DwOp(0x8d);
/// Pushes register 30 with an offset added.
pub const DW_OP_breg30: DwOp = DwOp(0x8e);
/// Pushes register 31 with an offset added.
pub const DW_OP_breg31: DwOp = DwOp(0x8f);
