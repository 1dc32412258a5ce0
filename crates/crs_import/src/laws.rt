ghost use Rattle.crs_import.specs.TableLaws.{RecordsAreAll};
ghost use Rattle.std.specs.Prelude.{◌≡◌, Ok, Err, codes};
ghost use Rattle.crs_import.specs.Tables.{table_log};
ghost use Rattle.crs_import.specs.declared.refusals.RowWord.TheVariants.{Header};
ghost use Rattle.crs_import.specs.declared.refusals.ImportRefused.TheVariants.{Csv, Row};

/// No record of a table is passed over.
pub fn records_are_all()
    ensures { RecordsAreAll }
{}

/// Logs of tables, and words of faulty ones.
pub fn tables_have_logs()
    ensures log { table_log (codes "what,date,name,args,old,new\nevent,007,a,x;y,,\nend,,,,,\n") ≡ Ok (codes "7 a[x,y]\nend\n") }
    ensures fields { table_log (codes "what,date,name,args,old,new\nevent,1,a,,\n") ≡ Err (Csv 2) }
    ensures none { table_log (codes "") ≡ Err (Row 1 Header) }
{}
