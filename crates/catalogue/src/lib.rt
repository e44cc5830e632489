// The register catalogue: the registers of each type of module, the kind of their values, and what
// may be written there. `specs/Catalogue.antt` has the paper's table in the paper's words.
#![tactic(auto)]

mod table;

ghost use Rattle.catalogue.specs.Catalogue.{Numbers, Finds};

// What the catalogue says of a register. Where it may not be written, both ends are 0.
#[derive(Clone, Copy)]
pub struct Entry {
    pub kind: u8,
    pub writable: bool,
    pub lowest: u64,
    pub highest: u64,
}

#[derive(Clone, Copy)]
pub enum Fault {
    NoSuchRow,
}

// The paper's number of a refusal.
pub fn number(fault: Fault) -> u8
    ensures { Numbers fault result }
{
    match fault {
        Fault::NoSuchRow => 50,
    }
}

// The row of that type of module and that register.
pub fn find(model: u8, register: u8) -> Result<Entry, Fault>
    ensures { Finds model register result }
{
    let Some(row) = table::ROWS
        .iter()
        .find(|row| row.model == model && row.register == register)
    else {
        return Err(Fault::NoSuchRow);
    };
    Ok(Entry {
        kind: row.kind,
        writable: row.writable,
        lowest: row.lowest,
        highest: row.highest,
    })
}
