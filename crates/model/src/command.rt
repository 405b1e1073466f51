// The commands of the functions that have more than one, by their codes.
ghost use Rattle.model.specs.Function.{Names};
ghost use Rattle.model.specs.Command.{calculations_code, control_code, internal_code, return_code};

use super::function::NoSuchCode;

// Function 03.
#[derive(Clone, Copy, PartialEq, Eq)]
pub enum CalculationsCommand {
    Asked = 0x00,
    All = 0x80,
}

impl TryFrom<u8> for CalculationsCommand {
    type Error = NoSuchCode;

    ghost try_from_gives = { Names calculations_code };

    fn try_from(code: u8) -> Result<CalculationsCommand, NoSuchCode> {
        match code {
            0x00 => Ok(CalculationsCommand::Asked),
            0x80 => Ok(CalculationsCommand::All),
            _ => Err(NoSuchCode),
        }
    }
}

// Function 10h.
#[derive(Clone, Copy, PartialEq, Eq)]
pub enum ControlCommand {
    Open = 0x10,
    Close = 0x11,
    Operate = 0x20,
    Reset = 0x21,
}

impl TryFrom<u8> for ControlCommand {
    type Error = NoSuchCode;

    ghost try_from_gives = { Names control_code };

    fn try_from(code: u8) -> Result<ControlCommand, NoSuchCode> {
        match code {
            0x10 => Ok(ControlCommand::Open),
            0x11 => Ok(ControlCommand::Close),
            0x20 => Ok(ControlCommand::Operate),
            0x21 => Ok(ControlCommand::Reset),
            _ => Err(NoSuchCode),
        }
    }
}

// Function 20h.
#[derive(Clone, Copy, PartialEq, Eq)]
pub enum InternalCommand {
    Restart = 0x00,
    ResetCount = 0x11,
    Write = 0x30,
    Execute = 0x31,
    SetTime = 0x38,
}

impl TryFrom<u8> for InternalCommand {
    type Error = NoSuchCode;

    ghost try_from_gives = { Names internal_code };

    fn try_from(code: u8) -> Result<InternalCommand, NoSuchCode> {
        match code {
            0x00 => Ok(InternalCommand::Restart),
            0x11 => Ok(InternalCommand::ResetCount),
            0x30 => Ok(InternalCommand::Write),
            0x31 => Ok(InternalCommand::Execute),
            0x38 => Ok(InternalCommand::SetTime),
            _ => Err(NoSuchCode),
        }
    }
}

// Function 28h.
#[derive(Clone, Copy, PartialEq, Eq)]
pub enum ReturnCommand {
    Read = 0x30,
    ReadTime = 0x31,
}

impl TryFrom<u8> for ReturnCommand {
    type Error = NoSuchCode;

    ghost try_from_gives = { Names return_code };

    fn try_from(code: u8) -> Result<ReturnCommand, NoSuchCode> {
        match code {
            0x30 => Ok(ReturnCommand::Read),
            0x31 => Ok(ReturnCommand::ReadTime),
            _ => Err(NoSuchCode),
        }
    }
}
