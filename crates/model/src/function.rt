// What a request asks for, by its code.
ghost use Rattle.model.specs.Function.{Names, code_of};

#[derive(Clone, Copy, PartialEq, Eq)]
pub enum Function {
    Inputs = 0x00,
    Calculations = 0x03,
    History = 0x04,
    Tables = 0x0A,
    Control = 0x10,
    Internal = 0x20,
    Return = 0x28,
}

// No function, or none of its commands, has the code.
#[derive(Clone, Copy)]
pub struct NoSuchCode;

impl TryFrom<u8> for Function {
    type Error = NoSuchCode;

    ghost try_from_gives = { Names code_of };

    fn try_from(code: u8) -> Result<Function, NoSuchCode> {
        match code {
            0x00 => Ok(Function::Inputs),
            0x03 => Ok(Function::Calculations),
            0x04 => Ok(Function::History),
            0x0A => Ok(Function::Tables),
            0x10 => Ok(Function::Control),
            0x20 => Ok(Function::Internal),
            0x28 => Ok(Function::Return),
            _ => Err(NoSuchCode),
        }
    }
}
