//! What is printed for words that are no command.

/// All commands, a line each.
pub const USAGE: &str = "usage: dynamo_table COMMAND FILE ..
  create FILE TABLE KEY:KIND [KEY:KIND]         makes a table, by its partition key and perhaps a sort key
  list FILE                                     prints the tables, their keys and how many items each has
  count FILE TABLE                              prints how many items a table has
  drop FILE TABLE                               deletes a table with its items
  put FILE TABLE [INPUT]                        puts one item
  load FILE TABLE [INPUT] [--plain] [--keep-going] [--max-line BYTES]
                                                puts and deletes what AWS's tools write, or puts plain JSON lines
  get FILE TABLE KEY [KEY] [--pretty]           prints the item of a key
  query FILE TABLE KEY [CONDITION] [--backward] [--pretty]
                                                prints the items of a partition, by the sort key
  scan FILE TABLE [--pretty]                    prints all items
  export FILE TABLE [--plain]                   prints all items as lines that load takes
  delete FILE TABLE KEY [KEY]                   deletes and prints the item of a key
  session FILE                                  runs the lines of its input, each a command without FILE
a KIND is S, N or B; a CONDITION is eq, lt, le, gt, ge or begins_with and a value, or between and two values;
an INPUT is the name of a file, and standard input where it is left out; a line of more than BYTES bytes, or
4194304 where that is left out, is a fault";
